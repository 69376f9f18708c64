// One virtual router by value: its record, its times and the state-by-event table.
#![tactic(auto)]

pub mod record; // what a place in use holds
pub mod timers; // skew, master down interval, advertisement interval
pub mod step; // the state-by-event table
