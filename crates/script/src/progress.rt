// How far a script was read.
use station::station::Station;

#[derive(Clone, Copy)]
pub struct Progress {
    // in number order; those that are not used are not there yet
    // Kept: memory is fixed, and `used` of the reading says how many there are.
    pub stations: [Station; 16],
    pub reading: Reading,
}

// What a script said of its segment, and where the next record begins.
#[derive(Clone, Copy)]
pub struct Reading {
    // how many stations there are
    pub used: usize,
    pub vrid: u8,
    // in seconds
    pub interval: u8,
    // the one virtual address
    pub address: [u8; 4],
    // whether a segment record was read
    // Kept: a flag: `station_in` reads a segment's fields, begun or not, and an option would hide them.
    pub begun: bool,
    // where the next record begins
    pub at: usize,
    // the next record's number
    pub number: u32,
    pub done: bool,
}
