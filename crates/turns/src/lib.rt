// The next record of a script: taken, refused, or none.
#![tactic(auto)]

ghost use Rattle.std.specs.Prelude.{◌≡◌, ◌≤◌, length};
ghost use Rattle.script.specs.Lines.{Printed};
ghost use Rattle.script.specs.Progress.{segment_in};
ghost use Rattle.turns.specs.Turn.{Turns, step_of, progress_left, line_left, told_of, found_in, number_in};

use printing::{put_printed, put_refused};
use refusing::taken_record;
use script::progress::{Progress, Reading};
use script::record::Record;
use taking::{reading_after, step_stations};
use wire::refusal::Refusal;

#[derive(Clone, Copy)]
pub struct Turn<'a> {
    // the record that is taken, none at the end of the script, or what refuses it
    pub found: Result<Option<Record<'a>>, Refusal>,
    // the number that the line begins with
    pub number: u32,
    pub reading: Reading,
}

// The next record, or the end.
pub fn turn_of<'a>(script: &'a [u8], progress: &Progress) -> Turn<'a>
    ensures turn { Turns progress.now (step_of script.now progress.now) result }
    ensures found { told_of result.found ≡ found_in script.now progress.now }
    ensures number { result.number ≡ number_in script.now progress.now }
{
    let reading = progress.reading;
    let end = Turn {
        found: Ok(None),
        number: 0,
        reading: Reading {
            done: true,
            ..reading
        },
    };
    if script.len() > 65536 {
        return Turn {
            found: Err(Refusal::ScriptTooLong),
            ..end
        };
    }
    let at = reading.at;
    if at >= script.len() || reading.number as usize > at + 1 {
        return end;
    }
    match taken_record(progress, script[at], &script[at + 1..]) {
        Ok(taken) => Turn {
            found: Ok(Some(taken)),
            number: reading.number,
            reading: reading_after(reading, taken),
        },
        Err(refusal) => Turn {
            found: Err(refusal),
            number: reading.number,
            ..end
        },
    }
}

// Goes on to the progress after a turn.
pub fn advance(progress: &mut Progress, turn: Turn)
    ensures { progress.new ≡ progress_left turn.entry progress.old }
{
    if let Ok(Some(taken)) = turn.found {
        step_stations(&mut progress.stations, progress.reading, taken);
    }
    progress.reading = turn.reading;
}

// Puts the line of a turn, after which the progress is this.
pub fn put_turn(out: &mut [u8], turn: Turn, after: &Progress) -> usize
    requires { 32 ≤ length out.old }
    ensures { Printed (line_left turn.entry.found turn.entry.number (segment_in after.now))
        out.old result out.new }
{
    match turn.found {
        Ok(Some(taken)) => put_printed(out, taken.kind, turn.number, after),
        Ok(None) => 0,
        Err(refusal) => put_refused(out, turn.number, refusal),
    }
}
