// Text put into a lent buffer at a place: each function answers the place after what it put, or the buffer's end.
// Kept: a buffer and a place, and no struct of both, as `Appended` and `OneAppended` speak of the two.
#![tactic(auto)]

ghost use Rattle.std.specs.Prelude.{◌≡◌, ◌∷◌, [], ◌<◌};
ghost use Rattle.text.specs.Appended.{Appended};
ghost use Rattle.text.specs.Digits.{decimal_of, address_of, hex_digit, hex_byte, hex_of, hex_or_dash};

// Puts one byte; past the end nothing is put.
pub fn put_byte(out: &mut [u8], at: usize, byte: u8) -> usize
    ensures { Appended out.old at (byte ∷ []) out.new result }
{
    if at < out.len() {
        out[at] = byte;
        return at + 1;
    }
    out.len()
}

// Puts bytes, as many as fit.
// Kept: byte by byte, as `put_hex`: a slice copied would need its own cut at the end, and be no plainer.
pub fn put(out: &mut [u8], at: usize, bytes: &[u8]) -> usize
    ensures { Appended out.old at bytes.now out.new result }
{
    let mut next = at.min(out.len());
    for byte in bytes {
        next = put_byte(out, next, *byte);
    }
    next
}

// Puts a number in decimal, as much as fits.
// Kept: digits by hand, here and below: the library's `Display` promises no bytes, and `Appended` names each.
pub fn put_decimal(out: &mut [u8], at: usize, number: u64) -> usize
    ensures { Appended out.old at (decimal_of number) out.new result }
{
    if number < 10 {
        return put_byte(out, at, b'0' + number as u8);
    }
    let next = put_decimal(out, at, number / 10);
    put_byte(out, next, b'0' + (number % 10) as u8)
}

// Puts a space and a number, as much as fits.
pub fn put_next(out: &mut [u8], at: usize, number: u64) -> usize
    ensures { Appended out.old at (32 ∷ decimal_of number) out.new result }
{
    let next = put_byte(out, at, b' ');
    put_decimal(out, next, number)
}

// Puts a 32-bit address, first byte greatest, as much as fits.
pub fn put_address(out: &mut [u8], at: usize, address: u32) -> usize
    ensures { Appended out.old at (address_of address) out.new result }
{
    let [a, b, c, d] = address.to_be_bytes();
    let mut next = put_decimal(out, at, u64::from(a));
    next = put_byte(out, next, b'.');
    next = put_decimal(out, next, u64::from(b));
    next = put_byte(out, next, b'.');
    next = put_decimal(out, next, u64::from(c));
    next = put_byte(out, next, b'.');
    put_decimal(out, next, u64::from(d))
}

fn hex_digit(n: u8) -> u8
    requires { n < 16 }
    ensures { result ≡ hex_digit n }
{
    if n < 10 { b'0' + n } else { b'a' + (n - 10) }
}

fn put_hex_byte(out: &mut [u8], at: usize, byte: u8) -> usize
    ensures { Appended out.old at (hex_byte byte) out.new result }
{
    let next = put_byte(out, at, hex_digit(byte / 16));
    put_byte(out, next, hex_digit(byte % 16))
}

// Puts bytes in hexadecimal, two digits each, as much as fits.
fn put_hex(out: &mut [u8], at: usize, bytes: &[u8]) -> usize
    ensures { Appended out.old at (hex_of bytes.now) out.new result }
{
    let mut next = at.min(out.len());
    for byte in bytes {
        next = put_hex_byte(out, next, *byte);
    }
    next
}

// Puts bytes in hexadecimal, or a dash where there are none, as much as fits.
pub fn put_hex_or_dash(out: &mut [u8], at: usize, bytes: &[u8]) -> usize
    ensures { Appended out.old at (hex_or_dash bytes.now) out.new result }
{
    if bytes.is_empty() {
        return put_byte(out, at, b'-');
    }
    put_hex(out, at, bytes)
}
