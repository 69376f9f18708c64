// Judging a packet of any length: the first of refusals 1 to 8, or the fields.
#![tactic(auto)]

mod message; // the VRRP message, refusals 5 to 8

ghost use Rattle.std.specs.Prelude.{◌≡◌, ◌≤◌, length};
ghost use Rattle.judging.specs.Judging.{fields_in, judged_of};
ghost use Rattle.wire.specs.Check.{first_refusal};
ghost use Rattle.wire.specs.Refusal.{numbered};
ghost use Rattle.headers.specs.Packet.{header_checks, payload};

use crate::message::message_refusal;
use headers::{Header, header_refusal};
use wire::refusal::Refusal;

// What a packet that passes refusals 1 to 8 says.
#[derive(Clone, Copy)]
pub struct Fields {
    // the source address, first byte greatest
    pub source: u32,
    pub vrid: u8,
    pub priority: u8,
    // how many addresses it lists
    pub count: u8,
    // the authentication type
    pub authentication: u8,
    // the interval in seconds
    pub interval: u8,
    // where its address list stands in the packet
    pub list: usize,
}

// The fields of a message, with its packet's source address and where its address list stands there.
fn read_fields(source: u32, message: &[u8], list: usize) -> Fields
    requires { 8 ≤ length message.now }
    ensures { result ≡ fields_in source message.now list }
{
    Fields {
        source,
        vrid: message[1],
        priority: message[2],
        count: message[3],
        authentication: message[4],
        interval: message[5],
        list,
    }
}

// The bytes between the header and the total length.
#[tactic(auto, using(crate::proofs::Passing::header_passed))]
fn payload(packet: &[u8]) -> &[u8]
    requires { first_refusal (header_checks packet.now) ≡ 0 }
    ensures { result.now ≡ payload packet.now }
{
    let header = Header { packet };
    &packet[header.length()..header.total_length()]
}

// Judges a packet up to refusal 8: any bytes have an answer.
#[tactic(auto, using(crate::proofs::Passing::steps))]
pub fn judge(packet: &[u8]) -> Result<Fields, Refusal>
    ensures { numbered result ≡ judged_of packet.now }
{
    header_refusal(packet)?;
    let message = payload(packet);
    message_refusal(message)?;
    let source = u32::from_be_bytes([packet[12], packet[13], packet[14], packet[15]]);
    let header = Header { packet };
    Ok(read_fields(source, message, header.length() + 8))
}
