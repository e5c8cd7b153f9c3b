// No code: what the streams of pairs and of windows are, written and read, in specs/; the theorems about them in proofs/.
// After src/cpc/compression.rs of the Rust crate datasketches 0.5.0 (Apache-2.0); changed: definitions in place of code.

#![tactic(auto)]
