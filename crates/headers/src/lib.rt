// The IPv4 header of a packet: refusals 1 to 4.
#![tactic(auto)]

ghost use Rattle.std.specs.Prelude.{◌≡◌, ◌≤◌, None, true, length};
ghost use Rattle.wire.specs.Check.{first_refusal};
ghost use Rattle.wire.specs.Refusal.{number_answered};
ghost use Rattle.headers.specs.Packet.{header_length, total_length, cause_of, header_sum_wrong, not_ours, header_checks};
ghost use Rattle.headers.specs.Cause.{cause_answered};

use sums::sum;
use wire::refusal::Refusal;

// What makes a header or its total length unreadable, in the order of the rules.
#[derive(Clone, Copy, Debug, PartialEq, Eq)]
pub enum Unreadable {
    Under20Bytes,
    NotVersion4,
    LengthFieldUnder5,
    HeaderBeyondGiven,
    TotalBelowHeader,
    TotalBeyondGiven,
}

// A packet with the 20 bytes that every header has.
#[derive(Clone, Copy)]
pub struct Header<'a> {
    pub packet: &'a [u8],
    pub ghost given: { 20 ≤ length packet.now },
}

impl Header<'_> {
    // Where it ends: four bytes for each of its length field.
    pub fn length(&self) -> usize
        ensures { result ≡ header_length self.now.packet.now }
    {
        4 * usize::from(self.packet[0] % 16)
    }

    // The total length that it names.
    pub fn total_length(&self) -> usize
        ensures { result ≡ total_length self.now.packet.now }
    {
        usize::from(u16::from_be_bytes([self.packet[2], self.packet[3]]))
    }

    // Whether its one's complement sum is wrong.
    #[tactic(auto, using(crate::proofs::Readable::reads), unfolding(crate::specs::Packet::header_sum_wrong))]
    fn sum_wrong(&self) -> bool
        requires { cause_of self.now.packet.now ≡ 0 }
        ensures { result ≡ header_sum_wrong self.now.packet.now }
    {
        sum(&self.packet[..self.length()]) != 65535
    }

    // Whether the packet is a fragment, not VRRP, or not to 224.0.0.18.
    #[tactic(auto, unfolding(crate::specs::Packet::not_ours))]
    fn not_ours(&self) -> bool
        ensures { result ≡ not_ours self.now.packet.now }
    {
        let packet = self.packet;
        let fragment = u16::from_be_bytes([packet[6], packet[7]]);
        let destination = u32::from_be_bytes([packet[16], packet[17], packet[18], packet[19]]);
        fragment / 8192 % 2 != 0
            || fragment % 8192 != 0
            || packet[9] != 112
            || destination != 0xE0000012
    }
}

// The first cause of refusal 1 that holds.
#[tactic(auto, unfolding(crate::specs::Packet::cause_of))]
pub fn cause(packet: &[u8]) -> Option<Unreadable>
    ensures { cause_answered result ≡ cause_of packet.now }
{
    let given = packet.len();
    if given < 20 {
        return Some(Unreadable::Under20Bytes);
    }
    let first = packet[0];
    if first / 16 != 4 {
        return Some(Unreadable::NotVersion4);
    }
    if first % 16 < 5 {
        return Some(Unreadable::LengthFieldUnder5);
    }
    let header = Header { packet };
    let end = header.length();
    if given < end {
        return Some(Unreadable::HeaderBeyondGiven);
    }
    let total = header.total_length();
    if total < end {
        return Some(Unreadable::TotalBelowHeader);
    }
    if given < total {
        return Some(Unreadable::TotalBeyondGiven);
    }
    None
}

// The first of refusals 1 to 4 that holds.
#[tactic(auto, using(crate::proofs::Readable::readable))]
pub fn header_refusal(packet: &[u8]) -> Result<(), Refusal>
    ensures { number_answered result ≡ first_refusal (header_checks packet.now) }
{
    if let Some(_) = cause(packet) {
        return Err(Refusal::IpHeader);
    }
    let header = Header { packet };
    if header.sum_wrong() {
        return Err(Refusal::IpChecksum);
    }
    if header.not_ours() {
        return Err(Refusal::NotOurs);
    }
    if packet[8] != 255 {
        return Err(Refusal::Ttl);
    }
    Ok(())
}
