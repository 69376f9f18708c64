// Replays a history of calls on a table, one binary record each on standard input, and prints a line for each.
#![tactic(auto)]

mod call; // the call that a record makes
mod lines; // the line of a call

use crate::call::Call;
use crate::lines::line_of;
use records::answering::answer_all;
use records::page::Page;
use records::reading::fresh_room;
use std::io;
use table::calls::empty;

// Makes a call, and answers its line.
fn replay(call: Call, words: &mut [u32; 4096], lists: &mut [u8; 16320]) -> Page {
    let mut bytes = fresh_room();
    let out = &mut bytes[..call.room().size];
    let answer = call.make(words, lists, out);
    line_of(answer, out, call.shown(), words)
}

fn main(rt: HostRuntime) -> io::Result<()> {
    let mut words = [0; 4096];
    let mut lists = [0; 16320];
    // a history that begins without a table has an empty one at 0.0.0.0
    empty(&mut words, 0);
    let mut memory = [0; 65535];
    answer_all(&mut rt.stdin(), &mut rt.stdout(), |kind, input| {
        Ok(replay(
            Call::read(&mut memory, kind, input)?,
            &mut words,
            &mut lists,
        ))
    })
}
