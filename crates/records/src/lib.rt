// What the test programs share: binary records from an input, and a page of text for each.
#![tactic(auto)]

pub mod answering; // a page for each record
pub mod page; // what is printed
pub mod reading; // parts of a record
