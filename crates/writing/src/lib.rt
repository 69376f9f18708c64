// Writing advertisement and gratuitous ARP frames.
#![tactic(auto)]

pub mod addresses; // the address bytes that a call is given
pub mod frame; // the advertisement frame
pub mod arp; // the gratuitous ARP frame
