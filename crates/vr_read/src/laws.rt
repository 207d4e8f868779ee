//! Laws over the definition of reading. A call has no code: its contract is the law. Nothing calls it: a proof that
//! needs the law names the proof of it, in `proofs/WellFormedModels`.

ghost use Rattle.std.specs.Prelude.{◌≡◌, ℕ, List, Ok};
ghost use Rattle.serde_json.specs.Data.{Data};
ghost use Rattle.vr_model.specs.tables.WellFormed.{IsWellFormed};
ghost use Rattle.vr_model.specs.declared.records.Model.{Model};
ghost use Rattle.vr_read.specs.Models.{read_model};

/// A model that reading gives is well formed. Each number lies in its range, and each list has a length that the format
/// allows. What must be distinct is, and no rule on the whole model is broken.
pub fn read_models_are_well_formed()
    ensures { (path : List ℕ) (d : Data) (model : Model) → read_model path d ≡ Ok model → IsWellFormed model }
{}
