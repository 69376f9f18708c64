// A page: what a program prints for a record. Each method puts something more at its end.
ghost use Rattle.std.specs.Prelude.{◌≡◌, ◌≤◌, ◌∷◌, [], take, OnOk};
ghost use Rattle.std.specs.Io.KnownBytes.{Appends};
ghost use Rattle.text.specs.Appended.{Appended};
ghost use Rattle.text.specs.Digits.{address_of, hex_or_dash};

use std::io;
use std::io::Write;
use text::{put, put_address, put_byte, put_decimal, put_hex_or_dash, put_next};
use wire::refusal::{Refusal, number_of};

// Kept: a buffer and its end, since the functions of `text` put into one: a `String` would want its own, and be no plainer.
#[derive(Drop)]
pub struct Page {
    // enough for the longest page: a packet of 255 addresses, as `judge` prints it
    pub bytes: [u8; 4207],
    pub end: usize,
    ghost within: { end ≤ 4207 },
}

impl Page {
    // A page with nothing on it.
    pub fn new() -> Page
        ensures { result.end ≡ 0 }
    {
        Page {
            bytes: [0; 4207],
            end: 0,
        }
    }

    pub fn byte(&mut self, byte: u8)
        ensures { Appended self.old.bytes self.old.end (byte ∷ []) self.new.bytes self.new.end }
    {
        self.end = put_byte(&mut self.bytes, self.end, byte);
    }

    pub fn text(&mut self, text: &[u8])
        ensures { Appended self.old.bytes self.old.end text.now self.new.bytes self.new.end }
    {
        self.end = put(&mut self.bytes, self.end, text);
    }

    pub fn number<N: Into<u64>>(&mut self, number: N) {
        self.end = put_decimal(&mut self.bytes, self.end, number.into());
    }

    // A space, and the number after it.
    pub fn next<N: Into<u64>>(&mut self, number: N) {
        self.end = put_next(&mut self.bytes, self.end, number.into());
    }

    // A dotted address.
    pub fn address(&mut self, address: u32)
        ensures { Appended self.old.bytes self.old.end (address_of address) self.new.bytes self.new.end }
    {
        self.end = put_address(&mut self.bytes, self.end, address);
    }

    // Bytes in hexadecimal, or a dash where there are none.
    pub fn hex(&mut self, bytes: &[u8])
        ensures { Appended self.old.bytes self.old.end (hex_or_dash bytes.now) self.new.bytes self.new.end }
    {
        self.end = put_hex_or_dash(&mut self.bytes, self.end, bytes);
    }

    // How a call ended: its number, and the room that it needs.
    pub fn outcome<T: Drop>(&mut self, outcome: Result<T, Refusal>) {
        let needed = match &outcome {
            Err(Refusal::Room(needed)) => *needed,
            _ => 0,
        };
        self.number(number_of(outcome));
        self.next(needed as u64);
    }

    pub fn write<W: Write>(&self, output: &mut W) -> io::Result<()>
        ensures { OnOk result (Appends (W.contents output.old) (W.contents output.new) (take self.now.end self.now.bytes)) }
    {
        output.write_all(&self.bytes[..self.end])
    }
}
