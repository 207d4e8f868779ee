//! Whether a vehicle may visit the nodes of an item, by what was looked up of them.

ghost use Rattle.std.specs.Prelude.{◌≡◌};
ghost use Rattle.std.specs.List.{list_all};
ghost use Rattle.vr_model.specs.routes.Rules.{allows_vehicle as allows_vehicle_of};
ghost use Rattle.vr_rules.specs.Placing.{item_nodes};

use crate::items::Item;
use vr_lists::NodeTables;

/// Whether vehicle `v` may visit each node of an item (`SetAllowedVehiclesForIndex` in OR-Tools). It takes no memory.
/// Insertion asks it, and [`Fronts::may_append`]; savings asks `is_route_open`, which asks the same of a whole list.
pub fn allows_item(node_tables: &NodeTables<'_>, v: u32, item: Item) -> bool
    ensures { result ≡ list_all (allows_vehicle_of node_tables.now v) (item_nodes item) }
{
    match item {
        Item::Visit(node) => node_tables.allows_each(v, &[node]),
        Item::PickupAndDelivery(pickup, delivery) => node_tables.allows_each(
            v,
            &[pickup, delivery],
        ),
    }
}
