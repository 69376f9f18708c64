// Rehearses a segment of stations from the script on standard input, and prints what comes of it.
#![tactic(auto)]

ghost use Rattle.std.specs.Prelude.{OnOk, IfSome};
ghost use Rattle.std.specs.Io.KnownBytes.{Appends};
ghost use Rattle.script.specs.Script.{rehearsal_of};

use records::reading::read_full;
use rehearsal::{run, start};
use std::io;
use std::io::{Read, Write};

// Runs the script and writes what it prints: all of it, or up to an error of the output.
fn rehearse<W: Write>(output: &mut W, script: &[u8]) -> io::Result<()>
    ensures { OnOk result (Appends (W.contents output.old) (W.contents output.new) (rehearsal_of script.now)) }
{
    let mut out = [0; 65536];
    let mut now = start();
    while !now.reading.done {
        let ran = run(script, now, &mut out);
        output.write_all(&out[..ran.written])?;
        now = ran.progress;
    }
    Ok(())
}

// Rehearses the script that the input is, to its end: a longer one than a script may be is refused, however long it is.
fn rehearse_input<R: Read, W: Write>(input: &mut R, output: &mut W) -> io::Result<()>
    ensures { OnOk result (IfSome (R.remaining input.old)
        (λ script. Appends (W.contents output.old) (W.contents output.new) (rehearsal_of script))) }
{
    // a byte more than a script may have
    let mut script = [0; 65537];
    let given = read_full(input, &mut script)?;
    rehearse(output, &script[..given])
}

fn main(rt: HostRuntime) -> io::Result<()> {
    rehearse_input(&mut rt.stdin(), &mut rt.stdout())
}
