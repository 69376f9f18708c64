// A page for each record of an input.
use crate::page::Page;
use crate::reading::Fault;
use std::io;
use std::io::{Read, Write};

// Writes the page that answers each record, up to the end of the input or to a bad record, which the last line says.
// `answer` is given the byte that the record begins with, and reads the rest of it.
pub fn answer_all<R, W, F>(input: &mut R, output: &mut W, mut answer: F) -> io::Result<()>
where
    R: Read,
    W: Write,
    F: FnMut(u8, &mut R) -> Result<Page, Fault>,
    requires { F.IsAlwaysCallable answer }
{
    // a loop has to end, and nothing says that the input does
    for _ in 0..u64::MAX {
        let Some(first) = input.by_ref().bytes().next().transpose()? else {
            break;
        };
        match answer(first, input) {
            Ok(page) => page.write(output)?,
            Err(Fault::BadRecord) => return output.write_all(b"bad record\n"),
            Err(Fault::Failed(error)) => return Err(error),
        }
    }
    Ok(())
}
