// Parts of a record as they come from an input.
ghost use Rattle.std.specs.Prelude.{◌≡◌, ◌≤◌, ◌<◌, IfOk, cond, length, take};
ghost use Rattle.std.specs.Int.{from_be_bytes, w16};
ghost use Rattle.std.specs.Io.KnownBytes.{Consumes, IsAtEnd};

use std::io;
use std::io::{ErrorKind, Read};

// Why a record is not answered.
#[derive(Debug, Drop)]
pub enum Fault {
    // it is cut off or of no kind, or one of its fields is out of range
    BadRecord,
    // the input failed
    Failed(io::Error),
}

impl From<io::Error> for Fault {
    fn from(error: io::Error) -> Fault {
        match error.kind() {
            ErrorKind::UnexpectedEof => Fault::BadRecord,
            _ => Fault::Failed(error),
        }
    }
}

// Reads until `part` is full or the input ends, and answers how many bytes came.
// Kept: a loop, as `read_to_end` wants a heap, and first asks for 512 bytes: of an input that keeps messages apart the rest would be lost.
pub fn read_full<R: Read>(input: &mut R, part: &mut [u8]) -> io::Result<usize>
    ensures within { IfOk result (λ n. n ≤ length part.new) }
    ensures bytes { IfOk result (λ n. Consumes (R.remaining input.old) (R.remaining input.new) (take n part.new)) }
    ensures end { IfOk result (λ n. n < length part.new → IsAtEnd (R.remaining input.new)) }
{
    let mut done = 0;
    while done < part.len() {
        let more = input.read(&mut part[done..])?;
        if more == 0 {
            return Ok(done);
        }
        done += more;
    }
    Ok(done)
}

// The largest room, all 0xA5, so that a byte that was left alone shows.
pub fn fresh_room() -> [u8; 1023]
    ensures { 1023 ≡ length result }
{
    [0xA5; 1023]
}

// How large the room of a call is, at most 1,023 bytes.
#[derive(Clone, Copy)]
pub struct Room {
    pub size: usize,
    pub ghost within: { size ≤ 1023 },
}

impl TryFrom<[u8; 2]> for Room {
    type Error = Fault;

    fn try_from(bytes: [u8; 2]) -> Result<Room, Fault>
        ensures { IfOk result (λ room. room.size ≡ from_be_bytes w16 bytes) }
    {
        let size = u16::from_be_bytes(bytes);
        if size > 1023 {
            return Err(Fault::BadRecord);
        }
        Ok(Room {
            size: usize::from(size),
        })
    }
}

// The flag that a byte is, 0 or 1.
pub fn flag_of(byte: u8) -> Result<bool, Fault>
    ensures { IfOk result (λ flag. byte ≡ cond flag 1 0) }
{
    match byte {
        0 => Ok(false),
        1 => Ok(true),
        _ => Err(Fault::BadRecord),
    }
}

// Reads the fields of a record that have a size, all at once.
pub fn read_head<R: Read, const N: usize>(input: &mut R) -> Result<[u8; N], Fault>
    ensures { IfOk result (λ head. Consumes (R.remaining input.old) (R.remaining input.new) head) }
{
    let mut head = [0; N];
    input.read_exact(&mut head)?;
    Ok(head)
}

// Reads so many bytes, into memory that is lent.
pub fn read_bytes<'a, R: Read>(
    memory: &'a mut [u8; 65535],
    input: &mut R,
    size: u16,
) -> Result<&'a [u8], Fault>
    ensures size { IfOk result (λ bytes. length bytes.now ≡ size) }
    ensures bytes { IfOk result (λ bytes. Consumes (R.remaining input.old) (R.remaining input.new) bytes.now) }
{
    let bytes = &mut memory[..usize::from(size)];
    input.read_exact(bytes)?;
    Ok(bytes)
}
