//! What a change of lists weighs, in a worked case. It is how many images of runs a walk takes through it, and how many
//! runs both sides have when it rejoins the list. As in `laws`, a function has no code, and nobody calls it.

ghost use Rattle.vr_steps.specs.Even.{SomeModelIsEven, SwapIsFeasible, SwapWeighsFive};

/// There is a model whose first dimension asks its first vehicle nothing but that the way between any two nodes takes
/// five.
pub fn some_model_is_even()
    ensures { SomeModelIsEven }
{}

/// In such a model two neighbours that change places in a list of this vehicle weigh five, however long the list is.
/// They weigh three arcs of one run each, and one run of both sides when the walk rejoins the list. The list has a
/// schedule afterwards.
pub fn swap_weighs_five()
    ensures weight { SwapWeighsFive }
    ensures feasible { SwapIsFeasible }
{}
