//! Two routes to be joined, and which of two joins comes first.

ghost use Rattle.std.specs.Prelude.{◌≡◌};
ghost use Rattle.vr_model.specs.tables.Numbers.{is_lex_less};
ghost use Rattle.vr_rules.specs.Placing.{improves as improves_by};
ghost use Rattle.vr_first_savings.specs.Joins.{saving_key};

/// Two routes by their places, the front one and the back one, with what joining them saves. It has the nodes at which
/// they meet: the last of the front route and the first of the back route.
#[derive(Clone, Copy)]
pub(crate) struct JoinChoice {
    pub(crate) front: usize,
    pub(crate) back: usize,
    pub(crate) saving: i64,
    pub(crate) last: u32,
    pub(crate) first: u32,
}

// Whether a choice comes before another: by the greater saving, then the lesser last node in front, then the lesser
// first node of the back.
fn comes_before(one: JoinChoice, other: JoinChoice) -> bool
    ensures { result ≡ is_lex_less (saving_key one) (saving_key other) }
{
    other.saving < one.saving
        || (other.saving <= one.saving
            && (one.last < other.last || (one.last <= other.last && one.first < other.first)))
}

/// Whether a choice is better than the best so far, or the first.
pub(crate) fn improves(best: Option<JoinChoice>, next: JoinChoice) -> bool
    ensures { result ≡ improves_by saving_key best next }
{
    match best {
        Some(best) => comes_before(next, best),
        None => true,
    }
}
