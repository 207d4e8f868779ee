//! The table of the search.

ghost use Rattle.std.specs.Prelude.{◌≡◌, ◌==◌, IfOk};
ghost use Rattle.std.specs.List.{list_any};
ghost use Rattle.vr_model.specs.tables.WellFormed.{neighbourhood_number};
ghost use Rattle.serde_json.specs.View.{view};
ghost use Rattle.vr_json.specs.Reading.{Answers};
ghost use Rattle.vr_read.specs.Searches as search_tables;

use std::alloc::Global;
use vr_json::{
    Array, Cause, Choice, Count, Datum, Fields, ReadFail, Reader, Table, TwoEntries, Whole,
};
use vr_model::limits::{GREATEST_LAMBDA, MOST_CUT, MOST_NEIGHBOURHOODS, MOST_TENURE, MOST_TRIES};
use vr_model::{First, Improve, Neighbourhood, NoMemory, SearchRow, Seq};

/// A neighbourhood, named by a word that comes nowhere earlier in its array.
#[derive(Clone, Copy)]
pub struct NeighbourhoodTable;

/// The search: its strategy for the first solution, its improvement, its limits, the weight of penalties, its
/// neighbourhoods. It also says how long the chains of its cuts are, and for how long changed visits are tabu.
#[derive(Clone, Copy)]
pub struct SearchTable;

// The words for first solutions.
const STRATEGIES: [(&str, First); 3] = [
    ("PATH_CHEAPEST_ARC", First::PathCheapestArc),
    (
        "PARALLEL_CHEAPEST_INSERTION",
        First::ParallelCheapestInsertion,
    ),
    ("SAVINGS", First::Savings),
];

// The words for improvements.
const IMPROVEMENTS: [(&str, Improve); 5] = [
    ("NONE", Improve::None),
    ("GREEDY_DESCENT", Improve::GreedyDescent),
    ("GUIDED_LOCAL_SEARCH", Improve::GuidedLocalSearch),
    ("PATH_LNS", Improve::PathLns),
    ("TABU_SEARCH", Improve::TabuSearch),
];

// The words for neighbourhoods.
const NEIGHBOURHOODS: [(&str, Neighbourhood); 11] = [
    ("two_opt", Neighbourhood::TwoOpt),
    ("or_opt", Neighbourhood::OrOpt),
    ("relocate", Neighbourhood::Relocate),
    ("exchange", Neighbourhood::Exchange),
    ("cross", Neighbourhood::Cross),
    ("relocate_pair", Neighbourhood::RelocatePair),
    ("pair_active", Neighbourhood::PairActive),
    ("pair_inactive", Neighbourhood::PairInactive),
    ("make_active", Neighbourhood::MakeActive),
    ("make_inactive", Neighbourhood::MakeInactive),
    ("swap_active", Neighbourhood::SwapActive),
];

// How many moves or cuts a search tries at most, if a model does not say it.
const TRIES: u32 = 100_000;

// The greatest number of tries, and of solutions. This many solutions may be found if a model does not say how many.
const MOST: u32 = MOST_TRIES as u32;

// How many visits the chain of a cut has at most, if a model does not say it.
const CUT: u32 = 10;

// For how many rounds a changed visit is tabu, if a model does not say it.
const TENURE: u32 = 10;

// Whether a neighbourhood is among some.
fn has_neighbourhood(some: &[Neighbourhood], neighbourhood: Neighbourhood) -> bool
    ensures { result ≡ list_any (λ other. neighbourhood_number other == neighbourhood_number neighbourhood) some.now }
{
    some.iter().any(|other| other.is_same(neighbourhood))
}

impl Reader for NeighbourhoodTable {
    type Item = Neighbourhood;

    ghost reads = { λ it earlier path d. search_tables.neighbourhood earlier path d };

    fn read(&self, earlier: &[Self::Item], datum: Datum<'_, '_>) -> Result<Self::Item, ReadFail> {
        let words = Choice {
            words: &NEIGHBOURHOODS,
        };
        let chosen = words.read(&[], datum)?;
        datum.refuse_if(has_neighbourhood(earlier, chosen), Cause::Repeated)?;
        Ok(chosen)
    }
}

/// The search if a model says nothing of it: the cheapest arc first, then greedy descent over all neighbourhoods. It
/// has at most 100000 tries and 10^9 solutions; lambda is 1/10, cut and tenure are 10. An empty object is read as the
/// same.
pub(crate) fn default_search(alloc: Global) -> Result<SearchRow, NoMemory>
    ensures { IfOk result (λ row. row ≡ search_tables.default_search) }
{
    Ok(SearchRow {
        first: First::PathCheapestArc,
        improve: Improve::GreedyDescent,
        tries: u64::from(TRIES),
        solutions: u64::from(MOST),
        p: 1,
        q: 10,
        neighbourhoods: Neighbourhood::all(alloc)?,
        cut: CUT,
        tenure: TENURE,
    })
}

// How a search begins and goes on, and how far it may go.
#[derive(Drop)]
pub struct SearchChoices {
    pub first: First,
    pub improve: Improve,
    pub tries: u64,
    pub solutions: u64,
}

// The first solution, the improvement and the limits of a search.
fn choices(fields: Fields<'_, '_>) -> Result<SearchChoices, ReadFail>
    ensures { Answers result (search_tables.choices fields.entry.path.now (view fields.entry.value.now)) }
{
    let strategy = Choice { words: &STRATEGIES };
    let cheapest = First::PathCheapestArc;
    let first = fields.optional("first", cheapest, &strategy)?;
    let improvement = Choice {
        words: &IMPROVEMENTS,
    };
    let descent = Improve::GreedyDescent;
    let improve = fields.optional("improve", descent, &improvement)?;
    let count = Count { lo: 0, hi: MOST };
    let tries = fields.optional("tries", TRIES, &count)?;
    let count = Count { lo: 1, hi: MOST };
    let solutions = fields.optional("solutions", MOST, &count)?;
    Ok(SearchChoices {
        first,
        improve,
        tries: u64::from(tries),
        solutions: u64::from(solutions),
    })
}

#[tactic(auto, unfolding(vr_json::specs::Reading::and_then, crate::specs::Searches::search_row))]
impl Table for SearchTable {
    type Row = SearchRow;

    ghost reads = { λ it earlier path d. search_tables.search_row path d };

    fn read(&self, _earlier: &[Self::Row], fields: Fields<'_, '_>) -> Result<Self::Row, ReadFail> {
        let choices = choices(fields)?;
        let weight = TwoEntries {
            entry: Whole {
                lo: 1,
                hi: GREATEST_LAMBDA,
            },
        };
        let lambda = fields.optional("lambda", (1, 10), &weight)?;
        let words = Array {
            lo: 0,
            hi: MOST_NEIGHBOURHOODS as usize,
            entry: NeighbourhoodTable,
        };
        let all = Neighbourhood::all(fields.alloc)?;
        let neighbourhoods = fields.optional("neighbourhoods", all, &words)?;
        let count = Count {
            lo: 1,
            hi: MOST_CUT,
        };
        let cut = fields.optional("cut", CUT, &count)?;
        let count = Count {
            lo: 1,
            hi: MOST_TENURE,
        };
        let tenure = fields.optional("tenure", TENURE, &count)?;
        fields.known(&FIELDS)?;
        Ok(SearchRow {
            first: choices.first,
            improve: choices.improve,
            tries: choices.tries,
            solutions: choices.solutions,
            p: lambda.0,
            q: lambda.1,
            neighbourhoods,
            cut,
            tenure,
        })
    }
}

// The fields of a search.
const FIELDS: [&str; 8] = [
    "first",
    "improve",
    "tries",
    "solutions",
    "lambda",
    "neighbourhoods",
    "cut",
    "tenure",
];
