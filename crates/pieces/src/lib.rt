// No code: that the pieces of a run are together what the whole script prints (specs/Theorems.antt).
#![tactic(auto)]
