// Judges one packet from standard input, and says by which rule it is refused or what it announces.
#![tactic(auto)]

mod accepted; // what an accepted packet announces

use crate::accepted::announced;
use judging::judge;
use records::reading::read_full;
use std::io;

fn main(rt: HostRuntime) -> io::Result<()> {
    // no packet is longer
    let mut memory = [0; 65536];
    let given = read_full(&mut rt.stdin(), &mut memory)?;
    let packet = &memory[..given];
    match judge(packet) {
        Ok(fields) => announced(packet, fields).write(&mut rt.stdout()),
        Err(refusal) => println!(rt; "refused {}: {refusal}", refusal.number()),
    }
}
