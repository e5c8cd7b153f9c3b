// No code: the starred cases of document 01's worked numbers, as one table under one statement, in specs/Worked.antt; proofs/Worked.antt shows that all hold.

#![tactic(auto)]
