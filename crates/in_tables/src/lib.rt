// No code: a step of a station is the table's call on a table that holds that one router (specs/Theorems.antt).
#![tactic(auto)]
