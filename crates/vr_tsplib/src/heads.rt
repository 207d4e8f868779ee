//! Keywords with their values, and the head. The head keeps all that lines say beside the rows of sections. `sections`
//! and `section_rows` have the rest of its steps.

ghost use Rattle.std.specs.Prelude.{◌≡◌, ◌≤◌, IfOk};
ghost use Rattle.vr_tsplib.specs.Heads as heads;

use crate::flaws::{Flaw, refuse_if};
use crate::numbers::count_in;
use crate::words::{meaning, one_number, one_word};
use vr_model::limits::{HORIZON, MOST_NODES};

/// A keyword.
#[derive(Clone, Copy)]
pub enum Keyword {
    Name,
    Comment,
    NodeCoordType,
    DisplayDataType,
    Type,
    Dimension,
    Capacity,
    EdgeWeightType,
    EdgeWeightFormat,
}

/// What a line without a colon names, outside sections.
#[derive(Clone, Copy)]
pub enum Heading {
    NodeCoordSection,
    EdgeWeightSection,
    DemandSection,
    DepotSection,
    Eof,
}

/// Where the weights come from.
#[derive(Clone, Copy)]
pub enum WeightType {
    /// They are distances in the plane.
    Euclidean,
    /// They are written in the file.
    Explicit,
}

/// How weights are written in the file.
#[derive(Clone, Copy)]
pub enum WeightFormat {
    /// All of them, row by row.
    FullMatrix,
    /// For each node from the second on, those to all lower nodes.
    LowerRow,
    /// Not at all.
    Function,
}

/// In which part of the file the next line is.
#[derive(Clone, Copy)]
pub enum LinePlace {
    /// Outside the sections.
    Outside,
    /// In the section of coordinates, of which this many rows are to come.
    Sites(u32),
    /// In the section of weights, of which this many are to come.
    Weights(u64),
    /// In the section of demands, of which this many rows are to come.
    Demands(u32),
    /// In the section of the depot, before its node.
    Depot,
    /// In the section of the depot, before the -1 that ends it.
    DepotEnd,
    /// After the line `EOF`.
    Ended,
}

/// What is known beside the rows of sections: the keywords and sections that came, the depot, and the place of the next
/// line. What a keyword or the row of the depot says is `None` until it came. `nodes` is what `DIMENSION` says.
#[derive(Clone, Copy)]
pub struct Head {
    /// Whether `NAME` came. It and the two below are kept because none may come twice; their values are not used.
    pub name: bool,
    pub node_coord_type: bool,
    pub display_data_type: bool,
    /// Whether `TYPE` came; its only value is `CVRP`.
    pub is_cvrp: bool,
    pub nodes: Option<u32>,
    pub capacity: Option<u64>,
    pub weight_type: Option<WeightType>,
    pub weight_format: Option<WeightFormat>,
    /// Whether the section of coordinates began.
    pub has_sites: bool,
    /// Whether the section of weights began.
    pub has_weights: bool,
    /// Whether the section of demands began.
    pub has_demands: bool,
    /// Whether the section of depots began.
    pub has_depot: bool,
    /// The depot, as the file numbers the nodes, from 1.
    pub depot: Option<u32>,
    pub place: LinePlace,
}

const WEIGHT_TYPES: [(&str, WeightType); 2] = [
    ("EUC_2D", WeightType::Euclidean),
    ("EXPLICIT", WeightType::Explicit),
];

const WEIGHT_FORMATS: [(&str, WeightFormat); 3] = [
    ("FULL_MATRIX", WeightFormat::FullMatrix),
    ("LOWER_ROW", WeightFormat::LowerRow),
    ("FUNCTION", WeightFormat::Function),
];

// A number as the value of a keyword, which must not have come before. Its flaws come in the order of their codes: no
// number, then came before, then out of range.
#[tactic(auto, unfolding(vr_json::specs::Reading::and_then, crate::specs::Heads::once_number))]
fn once_number(stood: bool, lo: u64, hi: u64, value: &[u8]) -> Result<u64, Flaw>
    ensures value { result ≡ heads.once_number stood lo hi value.now }
    ensures within { IfOk result (λ n. n ≤ hi) }
{
    let number = one_number(value)?;
    refuse_if(stood, Flaw::Repeated)?;
    count_in(number, lo, hi)
}

impl Head {
    /// What is known before the first line.
    pub(crate) fn new() -> Head
        ensures { result ≡ heads.no_head }
    {
        Head {
            name: false,
            node_coord_type: false,
            display_data_type: false,
            is_cvrp: false,
            nodes: None,
            capacity: None,
            weight_type: None,
            weight_format: None,
            has_sites: false,
            has_weights: false,
            has_demands: false,
            has_depot: false,
            depot: None,
            place: LinePlace::Outside,
        }
    }

    /// How many nodes there are. It is 0 before `DIMENSION`, when no row asks, since sections begin only after it.
    pub(crate) fn node_count(self) -> u32
        ensures { result ≡ heads.nodes_of self }
    {
        self.nodes.unwrap_or(0)
    }

    // With the keyword `NAME`.
    #[tactic(auto, unfolding(vr_json::specs::Reading::and_then, crate::specs::Heads::keep_name))]
    fn keep_name(self) -> Result<Head, Flaw>
        ensures { result ≡ heads.keep_name self }
    {
        refuse_if(self.name, Flaw::Repeated)?;
        Ok(Head { name: true, ..self })
    }

    // With the keyword `NODE_COORD_TYPE`.
    #[tactic(auto, unfolding(vr_json::specs::Reading::and_then, crate::specs::Heads::keep_node_coord_type))]
    fn keep_node_coord_type(self) -> Result<Head, Flaw>
        ensures { result ≡ heads.keep_node_coord_type self }
    {
        refuse_if(self.node_coord_type, Flaw::Repeated)?;
        Ok(Head {
            node_coord_type: true,
            ..self
        })
    }

    // With the keyword `DISPLAY_DATA_TYPE`.
    #[tactic(auto, unfolding(vr_json::specs::Reading::and_then, crate::specs::Heads::keep_display_data_type))]
    fn keep_display_data_type(self) -> Result<Head, Flaw>
        ensures { result ≡ heads.keep_display_data_type self }
    {
        refuse_if(self.display_data_type, Flaw::Repeated)?;
        Ok(Head {
            display_data_type: true,
            ..self
        })
    }

    // With the keyword `TYPE` and its value.
    #[tactic(auto, unfolding(vr_json::specs::Reading::and_then, crate::specs::Heads::keep_type))]
    fn keep_type(self, value: &[u8]) -> Result<Head, Flaw>
        ensures { result ≡ heads.keep_type self value.now }
    {
        let word = one_word(value)?;
        refuse_if(self.is_cvrp, Flaw::Repeated)?;
        refuse_if(word != b"CVRP".as_slice(), Flaw::UnknownWord)?;
        Ok(Head {
            is_cvrp: true,
            ..self
        })
    }

    // With the keyword `DIMENSION` and its value.
    #[tactic(auto, unfolding(vr_json::specs::Reading::and_then, crate::specs::Heads::keep_dimension))]
    fn keep_dimension(self, value: &[u8]) -> Result<Head, Flaw>
        ensures { result ≡ heads.keep_dimension self value.now }
    {
        let count = once_number(self.nodes.is_some(), 1, u64::from(MOST_NODES), value)?;
        Ok(Head {
            nodes: Some(count as u32),
            ..self
        })
    }

    // With the keyword `CAPACITY` and its value.
    #[tactic(auto, unfolding(vr_json::specs::Reading::and_then, crate::specs::Heads::keep_capacity))]
    fn keep_capacity(self, value: &[u8]) -> Result<Head, Flaw>
        ensures { result ≡ heads.keep_capacity self value.now }
    {
        let count = once_number(self.capacity.is_some(), 0, HORIZON as u64, value)?;
        Ok(Head {
            capacity: Some(count),
            ..self
        })
    }

    // With the keyword `EDGE_WEIGHT_TYPE` and its value.
    #[tactic(auto, unfolding(vr_json::specs::Reading::and_then, crate::specs::Heads::keep_weight_type))]
    fn keep_weight_type(self, value: &[u8]) -> Result<Head, Flaw>
        ensures { result ≡ heads.keep_weight_type self value.now }
    {
        let word = one_word(value)?;
        refuse_if(self.weight_type.is_some(), Flaw::Repeated)?;
        let chosen = meaning(&WEIGHT_TYPES, word).ok_or(Flaw::UnknownWord)?;
        Ok(Head {
            weight_type: Some(chosen),
            ..self
        })
    }

    // With the keyword `EDGE_WEIGHT_FORMAT` and its value.
    #[tactic(auto, unfolding(vr_json::specs::Reading::and_then, crate::specs::Heads::keep_weight_format))]
    fn keep_weight_format(self, value: &[u8]) -> Result<Head, Flaw>
        ensures { result ≡ heads.keep_weight_format self value.now }
    {
        let word = one_word(value)?;
        refuse_if(self.weight_format.is_some(), Flaw::Repeated)?;
        let chosen = meaning(&WEIGHT_FORMATS, word).ok_or(Flaw::UnknownWord)?;
        Ok(Head {
            weight_format: Some(chosen),
            ..self
        })
    }

    /// With a keyword and its value.
    pub(crate) fn keep(self, keyword: Keyword, value: &[u8]) -> Result<Head, Flaw>
        ensures { result ≡ heads.keep keyword self value.now }
    {
        match keyword {
            Keyword::Name => self.keep_name(),
            Keyword::Comment => Ok(self),
            Keyword::NodeCoordType => self.keep_node_coord_type(),
            Keyword::DisplayDataType => self.keep_display_data_type(),
            Keyword::Type => self.keep_type(value),
            Keyword::Dimension => self.keep_dimension(value),
            Keyword::Capacity => self.keep_capacity(value),
            Keyword::EdgeWeightType => self.keep_weight_type(value),
            Keyword::EdgeWeightFormat => self.keep_weight_format(value),
        }
    }
}
