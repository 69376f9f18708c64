// Hands cases to judging and writing, one binary record each on standard input, and prints a line for each answer.
#![tactic(auto)]

mod case; // a case as it is read
mod lines; // the line of each answer

use crate::case::Case;
use crate::lines::answered;
use records::answering::answer_all;
use std::io;

fn main(rt: HostRuntime) -> io::Result<()> {
    let mut memory = [0; 65535];
    answer_all(&mut rt.stdin(), &mut rt.stdout(), |kind, input| {
        Ok(answered(Case::read(&mut memory, kind, input)?))
    })
}
