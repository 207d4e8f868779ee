//! The rows of the sections of coordinates, of demands and of the depot.

ghost use Rattle.std.specs.Prelude.{◌≡◌};
ghost use Rattle.vr_tsplib.specs.Rows as row_tables;
ghost use Rattle.vr_tsplib.specs.Texts.{words};

use crate::flaws::{Flaw, refuse_if};
use crate::heads::{Head, LinePlace};
use crate::numbers::{count_in, whole_in};
use crate::words::{one_number, three_numbers, two_numbers};
use vr_model::limits::GREATEST_VALUE;

/// The point of a node; nodes as the file numbers them, from 1.
#[derive(Clone, Copy)]
pub struct SiteRow {
    pub node: u32,
    pub x: i64,
    pub y: i64,
}

/// How much a node asks.
#[derive(Clone, Copy)]
pub struct DemandRow {
    pub node: u32,
    pub demand: u32,
}

// The greatest coordinate, and minus the least one.
const GREATEST_COORDINATE: i64 = 1_000_000;

// A number that must be one of `n` nodes.
fn node_in(number: i64, n: u32) -> Result<u32, Flaw>
    ensures { result ≡ row_tables.node_in n number }
{
    let node = count_in(number, 1, u64::from(n))?;
    Ok(node as u32)
}

// A coordinate.
fn coordinate(number: i64) -> Result<i64, Flaw>
    ensures { result ≡ row_tables.coordinate number }
{
    whole_in(number, -GREATEST_COORDINATE, GREATEST_COORDINATE)
}

// Whether a node has a row of coordinates.
fn has_site(rows: &[SiteRow], node: u32) -> bool
    ensures { result ≡ row_tables.has_site rows.now node }
{
    rows.iter().any(|row| row.node == node)
}

// Whether a node has a row of its demand.
fn has_demand(rows: &[DemandRow], node: u32) -> bool
    ensures { result ≡ row_tables.has_demand rows.now node }
{
    rows.iter().any(|row| row.node == node)
}

/// The row of coordinates that a line is, of one of `n` nodes, after these rows.
#[tactic(auto, unfolding(vr_json::specs::Reading::and_then, crate::specs::Rows::site_row))]
pub(crate) fn site_row(n: u32, earlier: &[SiteRow], line: &[u8]) -> Result<SiteRow, Flaw>
    ensures { result ≡ row_tables.site_row n earlier.now (words line.now) }
{
    let (node, x, y) = three_numbers(line)?;
    let node = node_in(node, n)?;
    let x = coordinate(x)?;
    let y = coordinate(y)?;
    refuse_if(has_site(earlier, node), Flaw::NodeAgain)?;
    Ok(SiteRow { node, x, y })
}

/// The row of a demand that a line is, of one of `n` nodes, after these rows.
#[tactic(auto, unfolding(vr_json::specs::Reading::and_then, crate::specs::Rows::demand_row))]
pub(crate) fn demand_row(n: u32, earlier: &[DemandRow], line: &[u8]) -> Result<DemandRow, Flaw>
    ensures { result ≡ row_tables.demand_row n earlier.now (words line.now) }
{
    let (node, demand) = two_numbers(line)?;
    let node = node_in(node, n)?;
    let demand = count_in(demand, 0, GREATEST_VALUE as u64)?;
    refuse_if(has_demand(earlier, node), Flaw::NodeAgain)?;
    Ok(DemandRow {
        node,
        demand: demand as u32,
    })
}

/// The part of the file that comes after a row of coordinates. The row was one of this many that were to come.
pub(crate) fn sites_left(left: u32) -> LinePlace
    ensures { result ≡ row_tables.sites_left left }
{
    if left <= 1 {
        LinePlace::Outside
    } else {
        LinePlace::Sites(left - 1)
    }
}

/// The part of the file that comes after the row of a demand. The row was one of this many that were to come.
pub(crate) fn demands_left(left: u32) -> LinePlace
    ensures { result ≡ row_tables.demands_left left }
{
    if left <= 1 {
        LinePlace::Outside
    } else {
        LinePlace::Demands(left - 1)
    }
}

impl Head {
    /// With the line of the depot.
    #[tactic(auto, unfolding(vr_json::specs::Reading::and_then, crate::specs::Rows::depot_row))]
    pub(crate) fn depot_row(self, line: &[u8]) -> Result<Head, Flaw>
        ensures { result ≡ row_tables.depot_row self (words line.now) }
    {
        let number = one_number(line)?;
        let node = node_in(number, self.node_count())?;
        Ok(Head {
            depot: Some(node),
            place: LinePlace::DepotEnd,
            ..self
        })
    }

    /// With the line after the depot, which must be -1.
    #[tactic(auto, unfolding(vr_json::specs::Reading::and_then, crate::specs::Rows::depot_end))]
    pub(crate) fn depot_end(self, line: &[u8]) -> Result<Head, Flaw>
        ensures { result ≡ row_tables.depot_end self (words line.now) }
    {
        let number = one_number(line)?;
        refuse_if(number != -1, Flaw::NodeAgain)?;
        Ok(Head {
            place: LinePlace::Outside,
            ..self
        })
    }
}
