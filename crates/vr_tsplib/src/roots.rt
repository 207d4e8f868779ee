//! Square roots, rounded to the nearest whole number.

ghost use Rattle.std.specs.Prelude.{◌≡◌, ◌≤◌, ◌<◌, ◌+◌, ◌*◌, ℕ};
ghost use Rattle.vr_tsplib.specs.Roots as roots;
ghost use Rattle.vr_tsplib.specs.Roots.{IsFloorRoot, nearest};

use std::num::saturating_f64_to_u64;

// The greatest root that is asked for: that of 8 * 10^12, rounded down. Coordinates lie in -10^6..=10^6, so the squares
// of two differences add up to no more.
const GREATEST_ROOT: u64 = 2_828_427;

// The square root, rounded down. It is guessed in floating point, and looked for if that guess is another number. Of
// the tests the first keeps its square within 64 bits. The last says that the next number's square is above `n`.
fn floor_root(n: u64) -> u64
    requires { n ≤ 8000000000000 }
    ensures { IsFloorRoot n result }
{
    let guess = saturating_f64_to_u64((n as f64).sqrt());
    if guess <= GREATEST_ROOT && guess * guess <= n && n - guess * guess <= 2 * guess {
        return guess;
    }
    n.isqrt()
}

// The root rounded to the nearest whole number, by the root rounded down. Halfway to the next number the square is
// `root * root + root + 1/4`. `n` lies above that if it is more than `root` above `root * root`.
fn rounded(n: u64, root: u64) -> u64
    requires few { n ≤ 8000000000000 }
    requires root { IsFloorRoot n root }
    ensures { result ≡ roots.rounded n root }
{
    if n - root * root > root {
        root + 1
    } else {
        root
    }
}

/// The whole number nearest to the square root of `n`. The root is never halfway between two whole numbers. It takes no
/// memory. Outside of this crate tests alone ask it.
pub fn nearest_root(n: u64) -> u64
    requires { n ≤ 8000000000000 }
    ensures root { (r : ℕ) → r * r ≤ n → n < (r + 1) * (r + 1) → result ≡ roots.rounded n r }
    ensures value { result ≡ nearest n }
{
    rounded(n, floor_root(n))
}
