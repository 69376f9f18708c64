// The memory of a table, which the caller lends: words for the interface and 255 places, of which every word decodes.
#![tactic(auto)]

mod layout; // a router's record in 16 words
pub mod place; // reading, writing and finding a place
pub mod interface; // the interface's own words: primary address and counts
