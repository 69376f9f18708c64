// A script that is run in pieces, as much at a time as there is room for.
#![tactic(auto)]

ghost use Rattle.std.specs.Prelude.{◌≡◌};
ghost use Rattle.script.specs.Progress.{started};
ghost use Rattle.rehearsal.specs.Run.{RunLeaves};

use script::progress::{Progress, Reading};
use script::segment::no_stations;
use turns::{advance, put_turn, turn_of};

#[derive(Drop)]
pub struct Ran {
    pub progress: Progress,
    // how many bytes were written
    pub written: usize,
}

// Before the first record.
pub fn start() -> Progress
    ensures { result ≡ started }
{
    Progress {
        stations: no_stations(),
        reading: Reading {
            used: 0,
            vrid: 0,
            interval: 0,
            address: [0; 4],
            begun: false,
            at: 0,
            number: 1,
            done: false,
        },
    }
}

// Runs the script as far as whole lines are sure to fit: each has at most 32 bytes.
pub fn run(script: &[u8], progress: Progress, out: &mut [u8]) -> Ran
    ensures { RunLeaves script.now progress out.old result out.new }
{
    let mut now = progress;
    let mut written = 0;
    while !now.reading.done && out.len() - written >= 32 {
        let turn = turn_of(script, &now);
        advance(&mut now, turn);
        written += put_turn(&mut out[written..], turn, &now);
    }
    Ran {
        progress: now,
        written,
    }
}
