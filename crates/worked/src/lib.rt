// No code: the worked examples that 01 marks P, as one list (specs/Cases.antt) under a single theorem (proofs/Cases.antt).
#![tactic(auto)]
