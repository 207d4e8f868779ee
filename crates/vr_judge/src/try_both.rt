//! Two values that were made, each of which may have wanted memory.

ghost use Rattle.std.specs.Prelude.{◌≡◌, Ok, IfOk};

use vr_model::NoMemory;

/// Both of two values, or want of memory if making either wanted it. A function that opens several large values joins
/// them by it, two by two. So it ends early at one place for all of them, at which it owns none of them. The values
/// after one that wanted memory are opened all the same.
pub(crate) fn try_both<A: Drop, B: Drop>(
    first: Result<A, NoMemory>,
    second: Result<B, NoMemory>,
) -> Result<(A, B), NoMemory>
    ensures first { IfOk result (λ two. first ≡ Ok two.0) }
    ensures second { IfOk result (λ two. second ≡ Ok two.1) }
{
    let first = first?;
    let second = second?;
    Ok((first, second))
}
