// The script language of the rehearsal.
#![tactic(auto)]

pub mod segment; // the segment that a script describes
pub mod kinds; // the kinds of records
pub mod record; // a record whose body is whole
pub mod progress; // how far a script was read
