//! Worked examples of definitions of the crates above `vr_model`: a tight schedule, a file that is imported, path
//! neighbourhoods and tabu search on three nodes. Each is a theorem in `proofs/`, which the checker computes or proves
//! by hand. There is no code. The worked examples of `vr_model` are in its own `proofs/worked`.
#![tactic(auto)]
