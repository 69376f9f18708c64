// No code: a station that was made and stepped is a table that calls have led to (specs/Theorems.antt).
#![tactic(auto)]
