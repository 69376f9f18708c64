// The stations of a segment, each a station by value.
#![tactic(auto)]

pub mod list; // the stations in a lent list
