//! The heat of a step.

ghost use Rattle.std.specs.Prelude.{◌≡◌, ◌≤◌, ◌<◌, ◌+◌, ◌*◌, ◌/◌, ◌^◌, IfSome, min, unwrap_or};
ghost use Rattle.vr_ruin.specs.Steps.{cooled, heat_at};

// The heat some levels down: each level leaves 61 of 64 parts.
fn cool(levels: u64, heat: u64) -> u64
    requires { heat ≤ 2 ^ 56 }
    ensures value { result ≡ cooled levels heat }
    ensures less { result ≤ heat }
{
    let mut h = heat;
    for _level in 0..levels {
        h = 61 * h / 64;
    }
    h
}

/// The heat of step `used` of `tries`, times 2^16. All steps together go down 64 levels.
pub(crate) fn heat_of_step(heat: u64, tries: u64, used: u64) -> u64
    requires heat { heat ≤ 2 ^ 40 }
    requires some { 1 ≤ used }
    requires used { used ≤ tries }
    requires tries { tries ≤ 1000000000 }
    ensures value { result ≡ heat_at heat tries used }
    ensures bound { result ≤ heat * 2 ^ 16 }
{
    cool(64 * (used - 1) / tries, heat * 65536)
}

/// The heat with which a search begins: the one that is given, or else what an active visit moves for, at most 2^40.
pub(crate) fn heat_of_first(heat: Option<u64>, moving: u64, active: u32) -> u64
    requires given { IfSome heat (λ h. h ≤ 2 ^ 40) }
    ensures value { result ≡ unwrap_or heat (min (moving / (1 + active)) (2 ^ 40)) }
    ensures bound { result ≤ 2 ^ 40 }
{
    match heat {
        Some(given) => given,
        None => (moving / (1 + active as u64)).min(1 << 40),
    }
}
