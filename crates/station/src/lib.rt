// One station of a segment, by value: a table of one virtual router, with its latest advertisement.
#![tactic(auto)]

pub mod station; // what a station is
pub mod making; // a station just configured
pub mod acting; // an event's outcome, and the advertisement that is kept
