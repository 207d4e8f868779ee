//! Routes of lists.

ghost use Rattle.std.specs.Prelude.{◌≡◌, IfOk, IfSome, IsTrue, MatchOption, false, length, map, true};
ghost use Rattle.vr_model.specs.routes.Routes.{are_lists};
ghost use Rattle.vr_model.specs.routes.Rules.{is_valid};
ghost use Rattle.vr_model.specs.tables.Tables.{visits};
ghost use Rattle.vr_model.specs.tables.WellFormed.{IsWellFormed};

use std::alloc::Global;
use vr_model::{Model, NoMemory, Seq};
use vr_routes::Routes;
use vr_rules::valid;

/// Routes with these lists, as [`Routes::from_lists`] makes them.
pub fn routes_of(alloc: Global, model: &Model, lists: &[&[u32]]) -> Result<Option<Routes>, NoMemory>
    requires well_formed { IsWellFormed model.now }
    ensures answer { let are = are_lists model.now (map (λ list. list.now) lists.now) in
        IfOk result (λ answer. MatchOption answer (are ≡ false) (λ routes. are ≡ true)) }
    ensures visits { IfOk result (λ answer. IfSome answer (λ routes. routes.visits ≡ visits model.now)) }
    ensures lists { IfOk result (λ answer. IfSome answer (λ routes. routes.lists ≡ map (λ list. list.now) lists.now)) }
{
    let seqs = seqs_of(alloc, lists)?;
    Routes::from_lists(alloc, model, &seqs)
}

// The same lists.
fn seqs_of(alloc: Global, lists: &[&[u32]]) -> Result<Vec<Seq<u32>>, NoMemory>
    ensures { IfOk result (λ seqs. seqs.items ≡ map (λ list. list.now) lists.now) }
{
    let mut seqs = Vec::new(alloc);
    for list in lists {
        seqs.push(seq_of(alloc, list)?)?;
    }
    Ok(seqs)
}

// The numbers in order.
fn seq_of(alloc: Global, numbers: &[u32]) -> Result<Seq<u32>, NoMemory>
    ensures { IfOk result (λ seq. seq ≡ numbers.now) }
{
    let mut seq = Seq::new(alloc);
    seq.extend_from_slice(numbers)?;
    Ok(seq)
}

/// Routes of a model with these lists; `None` exactly if they are not valid. The call fails only if out of memory.
pub fn valid_routes(
    alloc: Global,
    model: &Model,
    lists: &[&[u32]],
) -> Result<Option<Routes>, NoMemory>
    requires well_formed { IsWellFormed model.now }
    ensures answer { let are = is_valid model.now (map (λ list. list.now) lists.now) in
        IfOk result (λ answer. MatchOption answer (are ≡ false) (λ routes. are ≡ true)) }
    ensures of_model { IfOk result (λ routes. IfSome routes (λ found. found.visits ≡ visits model.now)) }
    ensures lists { IfOk result (λ routes. IfSome routes (λ found. found.lists ≡ map (λ list. list.now) lists.now)) }
    ensures many { IfOk result (λ routes. IfSome routes (λ found. length found.lists ≡ length model.now.vehicles)) }
    ensures valid { IfOk result (λ routes. IfSome routes (λ found. IsTrue (is_valid model.now found.lists))) }
{
    let Some(routes) = routes_of(alloc, model, lists)? else {
        return Ok(None);
    };
    if valid(alloc, model, &routes)? {
        Ok(Some(routes))
    } else {
        Ok(None)
    }
}
