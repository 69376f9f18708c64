// No code: what holds of the calls of the table (specs/Theorems.antt) and after every history of them (specs/Histories.antt).
#![tactic(auto)]
