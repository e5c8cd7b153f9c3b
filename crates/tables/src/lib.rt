// No code: what the pair table is, slot for slot and as a plain set, in specs/; the theorems about it in proofs/.
// After src/cpc/pair_table.rs and src/cpc/union.rs of the Rust crate datasketches 0.5.0 (Apache-2.0); changed: definitions in place of code.

#![tactic(auto)]
