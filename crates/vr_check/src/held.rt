//! Whether a node is in a list, or in some list.

ghost use Rattle.std.specs.Prelude.{◌≡◌};
ghost use Rattle.vr_model.specs.routes.Routes as routes;

use vr_model::Seq;

/// Whether a node is in a list.
pub(crate) fn holds(list: &[u32], node: u32) -> bool
    ensures { result ≡ routes.holds list.now node }
{
    list.iter().any(|&other| node == other)
}

/// Whether a node is in some list.
pub(crate) fn is_active(lists: &[Seq<u32>], node: u32) -> bool
    ensures { result ≡ routes.is_active lists.now node }
{
    lists.iter().any(|list| holds(list.as_slice(), node))
}
