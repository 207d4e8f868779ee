//! What is weighed for the end of a list, and which of two choices comes first.

ghost use Rattle.std.specs.Prelude.{◌≡◌, option_map};
ghost use Rattle.vr_model.specs.tables.Numbers.{is_lex_less};
ghost use Rattle.vr_rules.specs.Placing.{improves as improves_by};
ghost use Rattle.vr_first_arc.specs.Choices.{arc_key, item_of_choice};

use vr_rules::Item;

// An item that is weighed for the end of a list, its class, and the cost of the arc from there to its first node.
#[derive(Clone, Copy)]
pub(crate) struct ArcChoice {
    pub(crate) item: Item,
    pub(crate) class: u32,
    pub(crate) cost: i64,
}

// Whether a choice comes before another: by class, then by cost, then by number, which is that of the first node.
fn comes_before(one: ArcChoice, other: ArcChoice) -> bool
    ensures { result ≡ is_lex_less (arc_key one) (arc_key other) }
{
    let (number, others) = (one.item.number(), other.item.number());
    one.class < other.class
        || (one.class <= other.class
            && (one.cost < other.cost || (one.cost <= other.cost && number < others)))
}

// Whether a choice is better than the best so far, or the first.
pub(crate) fn improves(best: Option<ArcChoice>, next: ArcChoice) -> bool
    ensures { result ≡ improves_by arc_key best next }
{
    match best {
        Some(best) => comes_before(next, best),
        None => true,
    }
}

// The item of a choice, if there is one.
pub(crate) fn item_of(best: Option<ArcChoice>) -> Option<Item>
    ensures { result ≡ option_map item_of_choice best }
{
    best.map(|choice| choice.item)
}
