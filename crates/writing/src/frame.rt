// The advertisement frame: Ethernet, IPv4 header and VRRP message.
ghost use Rattle.std.specs.Prelude.{◌≡◌, ◌+◌, ◌≤◌, ◌++◌, length, IfOk};
ghost use Rattle.wire.specs.Refusal.{RefusedBy};
ghost use Rattle.writing.specs.Frame.{message_end, message_checksum, message_of, header_checksum, header_of, ethernet_of, frame_of};
ghost use Rattle.writing.specs.Writing.{over, advertisement_refusal, AdvertisementWritten};

use crate::addresses::Addresses;
use rooms::put;
use sums::{fold, plain_total};
use wire::refusal::Refusal;

// What an advertisement of a virtual router says.
#[derive(Clone, Copy)]
pub struct Advertisement<'a> {
    pub vrid: u8,
    pub priority: u8,
    pub interval: u8,
    pub primary: u32,
    pub addresses: Addresses<'a>,
}

impl Advertisement<'_> {
    // The checksum of the header that we write: all of it is known but the total length and the primary address.
    // By value: behind a `&` the range of the primary address is not stated.
    #[tactic(auto, using(crate::proofs::Checksums::header_sum))]
    fn header_checksum(self) -> u16
        ensures { result ≡ header_checksum self.entry.primary self.entry.addresses.bytes.now }
    {
        let fixed: u64 = 0x45000000 + 0x00004000 + 0xFF700000 + 0xE0000012;
        !fold(fixed + 36 + self.addresses.bytes.len() as u64 + u64::from(self.primary))
    }

    // The checksum of the message: the addresses are summed where they stand.
    #[tactic(auto, using(crate::proofs::Checksums::message_sum))]
    fn message_checksum(&self) -> u16
        ensures { result ≡ message_checksum self.now.vrid self.now.priority self.now.interval
            self.now.addresses.bytes.now }
    {
        let start = u32::from_be_bytes([0x21, self.vrid, self.priority, self.addresses.count()]);
        let middle = u32::from_be_bytes([0, self.interval, 0, 0]);
        !fold(u64::from(start) + u64::from(middle) + plain_total(self.addresses.bytes))
    }

    // The 14 Ethernet bytes.
    fn ethernet_head(&self) -> [u8; 14]
        ensures bytes { result ≡ ethernet_of self.now.vrid }
        ensures long { 14 ≡ length result }
    {
        [
            0x01, 0x00, 0x5E, 0x00, 0x00, 0x12, 0x00, 0x00, 0x5E, 0x00, 0x01, self.vrid, 0x08, 0x00,
        ]
    }

    // The IPv4 header, by value as its checksum.
    fn ip_header(self) -> [u8; 20]
        ensures bytes { result ≡ header_of self.entry.primary self.entry.addresses.bytes.now }
        ensures long { 20 ≡ length result }
    {
        let [length_high, length_low] = (36 + self.addresses.bytes.len() as u16).to_be_bytes();
        let [sum_high, sum_low] = self.header_checksum().to_be_bytes();
        let [a, b, c, d] = self.primary.to_be_bytes();
        [
            0x45,
            0,
            length_high,
            length_low,
            0,
            0,
            0x40,
            0,
            255,
            112,
            sum_high,
            sum_low,
            a,
            b,
            c,
            d,
            224,
            0,
            0,
            18,
        ]
    }

    // The 8 bytes of the message before its addresses.
    #[tactic(auto, unfolding(crate::specs::Frame::message_of))]
    fn message_head(&self) -> [u8; 8]
        ensures bytes { result ++ message_end self.now.addresses.bytes.now
            ≡ message_of self.now.vrid self.now.priority self.now.interval self.now.addresses.bytes.now }
        ensures long { 8 ≡ length result }
    {
        let [sum_high, sum_low] = self.message_checksum().to_be_bytes();
        [
            0x21,
            self.vrid,
            self.priority,
            self.addresses.count(),
            0,
            self.interval,
            sum_high,
            sum_low,
        ]
    }

    // Writes the frame at the start of a room that holds it.
    pub fn put(&self, room: &mut [u8])
        requires { 50 + length self.now.addresses.bytes.now ≤ length room.old }
        ensures { room.new ≡ over (frame_of self.now.vrid self.now.priority self.now.interval self.now.primary
            self.now.addresses.bytes.now) room.old }
    {
        put(room, 0, &self.ethernet_head());
        put(room, 14, &self.ip_header());
        put(room, 34, &self.message_head());
        put(room, 42, self.addresses.bytes);
        put(room, 42 + self.addresses.bytes.len(), &[0; 8])
    }
}

// The addresses, or the first of refusals 14, 16, 17 and 22 of direct writing that holds.
#[tactic(auto, unfolding(crate::specs::Writing::advertisement_refusal))]
fn advertisement_refusal(
    vrid: u8,
    interval: u8,
    addresses: &[u8],
    room: usize,
) -> Result<Addresses<'_>, Refusal>
    ensures refused { RefusedBy (advertisement_refusal vrid interval addresses.now room)
        (50 + length addresses.now) result }
    ensures taken { IfOk result (λ list. list.bytes.now ≡ addresses.now) }
{
    if vrid == 0 {
        return Err(Refusal::VridZero);
    }
    if interval == 0 {
        return Err(Refusal::IntervalZero);
    }
    let list = Addresses::try_from(addresses)?;
    let need = 50 + addresses.len();
    if room < need {
        return Err(Refusal::Room(need));
    }
    Ok(list)
}

// Writes the advertisement of a virtual router at the start of `out`, and answers its length; priority 0 is allowed.
// Refuses 14 (VRID 0), 16 (interval 0), 17 (address bytes) and 22 (room), in that order, and then leaves `out` as it was.
#[tactic(auto, using(crate::proofs::Writes::advertisement_passed))]
pub fn write_advertisement(
    vrid: u8,
    priority: u8,
    interval: u8,
    primary: u32,
    addresses: &[u8],
    out: &mut [u8],
) -> Result<usize, Refusal>
    ensures { AdvertisementWritten vrid priority interval primary addresses.now out.old
        result out.new }
{
    let list = advertisement_refusal(vrid, interval, addresses, out.len())?;
    let advertisement = Advertisement {
        vrid,
        priority,
        interval,
        primary,
        addresses: list,
    };
    advertisement.put(out);
    Ok(50 + addresses.len())
}
