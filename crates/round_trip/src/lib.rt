// No code: what holds of judging and writing, and that what is written reads back (specs/Theorems.antt).
#![tactic(auto)]
