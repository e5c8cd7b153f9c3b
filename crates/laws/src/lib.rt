// No code: mathematics that the kit lacks and that is about no one crate's subject, definitions in specs/ and laws in proofs/.

#![tactic(auto)]
