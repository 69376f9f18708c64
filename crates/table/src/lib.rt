// The virtual routers of one interface: 255 places in memory that the caller lends, and the calls on them.
#![tactic(auto)]

pub mod calls; // the calls themselves
