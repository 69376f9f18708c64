// The lines that the rehearsal prints.
#![tactic(auto)]

ghost use Rattle.std.specs.Prelude.{◌≡◌, ◌∷◌, ◌≤◌, Some, length};
ghost use Rattle.text.specs.Appended.{Appended};
ghost use Rattle.wire.specs.Refusal.{refusal_number};
ghost use Rattle.script.specs.Lines.{Printed, letters_of, line_of, printed_of, refused_line};
ghost use Rattle.script.specs.Progress.{segment_in};

use script::kinds::Kind;
use script::progress::Progress;
use station::station::Station;
use text::{put, put_byte, put_decimal};
use wire::refusal::Refusal;

// Puts a space and a letter for each station that is used, as much as fits.
fn put_letters(out: &mut [u8], at: usize, stations: &[Station; 16], used: usize) -> usize
    ensures letters { Appended out.old at (32 ∷ letters_of used stations.now) out.new result }
    ensures few { length (letters_of used stations.now) ≤ 16 }
{
    let mut next = put_byte(out, at, b' ');
    for station in stations.iter().take(used) {
        next = put_byte(out, next, station.router.state.letter());
    }
    next
}

// Puts the line of a record that was taken.
// Kept: 32 bytes by a `requires`, since an array of 32 leaves out what stands behind it, of which `Printed` speaks.
fn put_line(out: &mut [u8], number: u32, progress: &Progress) -> usize
    requires { 32 ≤ length out.old }
    ensures { Printed (line_of number (segment_in progress.now)) out.old result out.new }
{
    let mut next = put_decimal(out, 0, number as u64);
    next = put_letters(out, next, &progress.stations, progress.reading.used);
    put_byte(out, next, b'\n')
}

// Puts the line of a record that was taken, where its kind has one.
pub fn put_printed(out: &mut [u8], kind: Kind, number: u32, progress: &Progress) -> usize
    requires { 32 ≤ length out.old }
    ensures { Printed (printed_of (Some kind) number (segment_in progress.now)) out.old result out.new }
{
    if matches!(kind, Kind::NewSegment | Kind::NewStation) {
        return 0;
    }
    put_line(out, number, progress)
}

// Puts the line of a refusal.
pub fn put_refused(out: &mut [u8], number: u32, refusal: Refusal) -> usize
    requires { 32 ≤ length out.old }
    ensures { Printed (refused_line number (refusal_number refusal)) out.old result out.new }
{
    let mut next = put_decimal(out, 0, number as u64);
    next = put(out, next, b" refused ");
    next = put_decimal(out, next, refusal.number() as u64);
    put_byte(out, next, b'\n')
}
