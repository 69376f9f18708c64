// Time and packets for one virtual router by value.
#![tactic(auto)]

pub mod clock; // a clock step
pub mod accept; // refusals 10 to 13 of a packet, and the counts
