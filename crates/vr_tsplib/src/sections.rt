//! The lines outside sections: keyword lines, the lines with which sections begin, and `EOF`.

ghost use Rattle.std.specs.Prelude.{◌≡◌};
ghost use Rattle.vr_tsplib.specs.Heads as heads;

use crate::flaws::{Flaw, refuse_if};
use crate::heads::{Head, Heading, Keyword, LinePlace, WeightFormat};
use crate::texts::cut_at;
use crate::words::{meaning, one_word};

const KEYWORDS: [(&str, Keyword); 9] = [
    ("NAME", Keyword::Name),
    ("COMMENT", Keyword::Comment),
    ("NODE_COORD_TYPE", Keyword::NodeCoordType),
    ("DISPLAY_DATA_TYPE", Keyword::DisplayDataType),
    ("TYPE", Keyword::Type),
    ("DIMENSION", Keyword::Dimension),
    ("CAPACITY", Keyword::Capacity),
    ("EDGE_WEIGHT_TYPE", Keyword::EdgeWeightType),
    ("EDGE_WEIGHT_FORMAT", Keyword::EdgeWeightFormat),
];

const HEADINGS: [(&str, Heading); 5] = [
    ("NODE_COORD_SECTION", Heading::NodeCoordSection),
    ("EDGE_WEIGHT_SECTION", Heading::EdgeWeightSection),
    ("DEMAND_SECTION", Heading::DemandSection),
    ("DEPOT_SECTION", Heading::DepotSection),
    ("EOF", Heading::Eof),
];

// How many weights a format has for `n` nodes; `None` if it has no section of weights.
fn weights_of(format: WeightFormat, n: u32) -> Option<u64>
    ensures { result ≡ heads.weights_of format n }
{
    let n = u64::from(n);
    match format {
        WeightFormat::FullMatrix => Some(n * n),
        WeightFormat::LowerRow => Some(n * n.saturating_sub(1) / 2),
        WeightFormat::Function => None,
    }
}

// The same of the format in a head, `None` also if its keyword did not come yet.
fn weights_wanted(format: Option<WeightFormat>, n: u32) -> Option<u64>
    ensures { result ≡ heads.weights_wanted format n }
{
    match format {
        None => None,
        Some(format) => weights_of(format, n),
    }
}

/// The part of the file that the next line is in, if this many weights are to come. It is their section, and outside it
/// if none are.
pub(crate) fn weights_left(left: u64) -> LinePlace
    ensures { result ≡ heads.weights_left left }
{
    if left == 0 {
        LinePlace::Outside
    } else {
        LinePlace::Weights(left)
    }
}

impl Head {
    // How many nodes there are, if a section begins: it must not have come before, and `DIMENSION` must.
    #[tactic(auto, unfolding(vr_json::specs::Reading::and_then, crate::specs::Heads::section_nodes))]
    fn section_nodes(self, stood: bool) -> Result<u32, Flaw>
        ensures { result ≡ heads.section_nodes self stood }
    {
        refuse_if(stood, Flaw::Repeated)?;
        self.nodes.ok_or(Flaw::Missing)
    }

    // The section of coordinates begins.
    #[tactic(auto, unfolding(vr_json::specs::Reading::and_then, crate::specs::Heads::begin_sites))]
    fn begin_sites(self) -> Result<Head, Flaw>
        ensures { result ≡ heads.begin_sites self }
    {
        let n = self.section_nodes(self.has_sites)?;
        Ok(Head {
            has_sites: true,
            place: LinePlace::Sites(n),
            ..self
        })
    }

    // The section of weights begins.
    #[tactic(auto, unfolding(vr_json::specs::Reading::and_then, crate::specs::Heads::begin_weights))]
    fn begin_weights(self) -> Result<Head, Flaw>
        ensures { result ≡ heads.begin_weights self }
    {
        let n = self.section_nodes(self.has_weights)?;
        let left = weights_wanted(self.weight_format, n).ok_or(Flaw::Missing)?;
        Ok(Head {
            has_weights: true,
            place: weights_left(left),
            ..self
        })
    }

    // The section of demands begins.
    #[tactic(auto, unfolding(vr_json::specs::Reading::and_then, crate::specs::Heads::begin_demands))]
    fn begin_demands(self) -> Result<Head, Flaw>
        ensures { result ≡ heads.begin_demands self }
    {
        let n = self.section_nodes(self.has_demands)?;
        Ok(Head {
            has_demands: true,
            place: LinePlace::Demands(n),
            ..self
        })
    }

    // The section of the depot begins.
    #[tactic(auto, unfolding(vr_json::specs::Reading::and_then, crate::specs::Heads::begin_depot))]
    fn begin_depot(self) -> Result<Head, Flaw>
        ensures { result ≡ heads.begin_depot self }
    {
        self.section_nodes(self.has_depot)?;
        Ok(Head {
            has_depot: true,
            place: LinePlace::Depot,
            ..self
        })
    }

    // A section begins, or the file ends.
    fn begin(self, heading: Heading) -> Result<Head, Flaw>
        ensures { result ≡ heads.begin heading self }
    {
        match heading {
            Heading::NodeCoordSection => self.begin_sites(),
            Heading::EdgeWeightSection => self.begin_weights(),
            Heading::DemandSection => self.begin_demands(),
            Heading::DepotSection => self.begin_depot(),
            Heading::Eof => Ok(Head {
                place: LinePlace::Ended,
                ..self
            }),
        }
    }

    // A line with a colon, of which these are the parts before and after the first one.
    #[tactic(auto, unfolding(vr_json::specs::Reading::and_then, crate::specs::Heads::keyword_parts))]
    fn keyword_parts(self, name: &[u8], value: &[u8]) -> Result<Head, Flaw>
        ensures { result ≡ heads.keyword_parts self name.now value.now }
    {
        let word = one_word(name)?;
        let keyword = meaning(&KEYWORDS, word).ok_or(Flaw::FaultyLine)?;
        self.keep(keyword, value)
    }

    // A line without a colon.
    #[tactic(auto, unfolding(vr_json::specs::Reading::and_then, crate::specs::Heads::heading_line))]
    fn heading_line(self, line: &[u8]) -> Result<Head, Flaw>
        ensures { result ≡ heads.heading_line self line.now }
    {
        let word = one_word(line)?;
        let heading = meaning(&HEADINGS, word).ok_or(Flaw::FaultyLine)?;
        self.begin(heading)
    }

    /// With a line outside sections.
    pub(crate) fn outside_line(self, line: &[u8]) -> Result<Head, Flaw>
        ensures { result ≡ heads.outside_line self line.now }
    {
        match cut_at(line, b':') {
            Some((name, value)) => self.keyword_parts(name, value),
            None => self.heading_line(line),
        }
    }
}
