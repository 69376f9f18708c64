// Runs elections, one binary record each on standard input, and prints for each who remains Master.
#![tactic(auto)]

mod lines; // the line of an election
mod segment; // the stations of a record, and its deliveries

use crate::lines::{put_letters, put_master};
use crate::segment::{hand_over, read_stations};
use records::answering::answer_all;
use records::page::Page;
use records::reading::Fault;
use script::segment::no_stations;
use std::io;
use std::io::Read;

// Runs the election of a record that begins with the number of its stations. A bad one is read to its end all the same.
fn elect<R: Read>(count: u8, input: &mut R) -> Result<Page, Fault> {
    let mut page = Page::new();
    let mut memory = no_stations();
    let stations = &mut memory[..usize::from(count).min(16)];
    let all_made = read_stations(stations, input)?;
    put_letters(&mut page, stations);
    let all_handed = hand_over(stations, input)?;
    page.byte(b' ');
    put_letters(&mut page, stations);
    page.byte(b' ');
    put_master(&mut page, stations);
    page.byte(b'\n');
    if count == 0 || count > 16 || !all_made || !all_handed {
        return Err(Fault::BadRecord);
    }
    Ok(page)
}

fn main(rt: HostRuntime) -> io::Result<()> {
    answer_all(&mut rt.stdin(), &mut rt.stdout(), |count, input| {
        elect(count, input)
    })
}
