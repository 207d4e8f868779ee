//! Laws over the definitions. A call has no code: its contract is the law. Nothing calls it: a proof that needs the law
//! (one of `vr_app` does) names the proof of it, in `proofs/Solved`.

ghost use Rattle.std.specs.Prelude.{ℕ, List};
ghost use Rattle.vr_read.specs.Models.{read_model};
ghost use Rattle.vr_gen.specs.Generated.{generated};
ghost use Rattle.vr_gen.specs.Solved.{IsSolved};

/// Reading gives a model for the tree of each number, and the model has a first solution.
pub fn generated_models_are_solved()
    ensures { (number : ℕ) (path : List ℕ) → IsSolved (read_model path (generated number)) }
{}
