//! How many nodes of a group are active.

ghost use Rattle.std.specs.Prelude.{◌≡◌, ◌≤◌, length};
ghost use Rattle.vr_model.specs.routes.Rules.{active_in as active_in_of};

use vr_model::Group;
use vr_routes::Routes;

/// How many nodes of a group are active.
pub fn active_in(routes: &Routes, group: &Group) -> usize
    ensures value { result ≡ active_in_of routes.now.lists group.now }
    ensures few { result ≤ length group.now.nodes }
{
    let mut active = 0;
    for &node in group.nodes.as_slice() {
        if routes.is_active(node) {
            active += 1;
        }
    }
    active
}
