// The gratuitous ARP frame.
ghost use Rattle.std.specs.Prelude.{◌≡◌, ◌≤◌, length};
ghost use Rattle.wire.specs.Refusal.{RefusedBy};
ghost use Rattle.writing.specs.Arp.{arp_start, arp_end, arp_of};
ghost use Rattle.writing.specs.Writing.{over, arp_refusal, ArpWritten};

use rooms::put;
use wire::refusal::Refusal;

// The frame up to its operation: nothing in it but the VRID varies.
fn arp_head(vrid: u8) -> [u8; 22]
    ensures bytes { result ≡ arp_start vrid }
    ensures long { 22 ≡ length result }
{
    [
        0xFF, 0xFF, 0xFF, 0xFF, 0xFF, 0xFF, 0x00, 0x00, 0x5E, 0x00, 0x01, vrid, 0x08, 0x06, 0, 1,
        0x08, 0x00, 6, 4, 0, 1,
    ]
}

// Sender and target.
fn arp_tail(vrid: u8, address: u32) -> [u8; 20]
    ensures bytes { result ≡ arp_end vrid address }
    ensures long { 20 ≡ length result }
{
    let [a, b, c, d] = address.to_be_bytes();
    [
        0x00, 0x00, 0x5E, 0x00, 0x01, vrid, a, b, c, d, 0, 0, 0, 0, 0, 0, a, b, c, d,
    ]
}

// Writes the frame at the start of a room that holds it.
pub fn put_arp(vrid: u8, address: u32, room: &mut [u8])
    requires { 42 ≤ length room.old }
    ensures { room.new ≡ over (arp_of vrid address) room.old }
{
    put(room, 0, &arp_head(vrid));
    put(room, 22, &arp_tail(vrid, address))
}

// The first of refusals 14 and 22 of writing one ARP frame that holds.
#[tactic(auto, unfolding(crate::specs::Writing::arp_refusal))]
fn arp_refusal(vrid: u8, room: usize) -> Result<(), Refusal>
    ensures { RefusedBy (arp_refusal vrid room) 42 result }
{
    if vrid == 0 {
        return Err(Refusal::VridZero);
    }
    if room < 42 {
        return Err(Refusal::Room(42));
    }
    Ok(())
}

// Writes the gratuitous ARP frame of a virtual address at the start of `out`, and answers its length.
// Refuses 14 (VRID 0) and 22 (room), in that order, and then leaves `out` as it was.
#[tactic(auto, using(crate::proofs::Writes::arp_passed))]
pub fn write_arp(vrid: u8, address: u32, out: &mut [u8]) -> Result<usize, Refusal>
    ensures { ArpWritten vrid address out.old result out.new }
{
    arp_refusal(vrid, out.len())?;
    put_arp(vrid, address, out);
    Ok(42)
}
