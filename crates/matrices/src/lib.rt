// No code: matrices as sets of pairs, their split, expansion and union, in specs/; the theorems about them in proofs/.
// After src/cpc/union.rs, src/cpc/sketch.rs and src/cpc/mod.rs of the Rust crate datasketches 0.5.0 (Apache-2.0); changed: definitions in place of code.

#![tactic(auto)]
