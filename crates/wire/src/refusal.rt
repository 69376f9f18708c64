// Why the rules refuse a packet, a call or a script.
ghost use Rattle.std.specs.Prelude.{◌≡◌, ◌≤◌};
ghost use Rattle.wire.specs.Refusal.{number_answered, refusal_number};

use std::fmt;

#[derive(Clone, Copy, Debug, PartialEq, Eq)]
pub enum Refusal {
    // packets
    IpHeader,
    IpChecksum,
    NotOurs,
    Ttl,
    Version,
    TooShort,
    Checksum,
    MessageType,
    UnknownVrid,
    AddressOwner,
    Authentication,
    AddressList,
    OtherInterval,
    // calls
    VridZero,
    PriorityZero,
    IntervalZero,
    AddressBytes,
    VridTaken,
    NoFreePlace,
    NoRouter,
    NotInInitialize,
    // so many bytes are needed
    Room(usize),
    // scripts
    UnknownKind,
    BodyCutOff,
    NotOneSegment,
    UnusedStation,
    SeventeenthStation,
    NothingToDeliver,
    PreemptAboveOne,
    ScriptTooLong,
}

impl Refusal {
    // The number that the rules give it.
    pub fn number(self) -> u32
        ensures number { result ≡ refusal_number self }
        ensures least { 1 ≤ result }
        ensures most { result ≤ 30 }
    {
        match self {
            Refusal::IpHeader => 1,
            Refusal::IpChecksum => 2,
            Refusal::NotOurs => 3,
            Refusal::Ttl => 4,
            Refusal::Version => 5,
            Refusal::TooShort => 6,
            Refusal::Checksum => 7,
            Refusal::MessageType => 8,
            Refusal::UnknownVrid => 9,
            Refusal::AddressOwner => 10,
            Refusal::Authentication => 11,
            Refusal::AddressList => 12,
            Refusal::OtherInterval => 13,
            Refusal::VridZero => 14,
            Refusal::PriorityZero => 15,
            Refusal::IntervalZero => 16,
            Refusal::AddressBytes => 17,
            Refusal::VridTaken => 18,
            Refusal::NoFreePlace => 19,
            Refusal::NoRouter => 20,
            Refusal::NotInInitialize => 21,
            Refusal::Room(_) => 22,
            Refusal::UnknownKind => 23,
            Refusal::BodyCutOff => 24,
            Refusal::NotOneSegment => 25,
            Refusal::UnusedStation => 26,
            Refusal::SeventeenthStation => 27,
            Refusal::NothingToDeliver => 28,
            Refusal::PreemptAboveOne => 29,
            Refusal::ScriptTooLong => 30,
        }
    }
}

// The number for C and for printed lines: 0 where nothing is refused.
pub fn number_of<T: Drop>(answer: Result<T, Refusal>) -> u32
    ensures { result ≡ number_answered answer }
{
    match answer {
        Ok(_) => 0,
        Err(refusal) => refusal.number(),
    }
}

// What the number stands for.
impl fmt::Display for Refusal {
    fn fmt<W: fmt::Write>(&self, f: &mut fmt::Formatter<W>) -> fmt::Result {
        f.write_str(match self {
            Refusal::IpHeader => "the IP header or total length cannot be right",
            Refusal::IpChecksum => "the IP header checksum is wrong",
            Refusal::NotOurs => "a fragment, not protocol 112, or not to 224.0.0.18",
            Refusal::Ttl => "TTL is not 255",
            Refusal::Version => "the VRRP version is not 2",
            Refusal::TooShort => "the message is too short",
            Refusal::Checksum => "the message checksum is wrong",
            Refusal::MessageType => "the message type is not 1",
            Refusal::UnknownVrid => "no virtual router of this VRID hears it",
            Refusal::AddressOwner => "the router here is the address owner",
            Refusal::Authentication => "the authentication type is not 0",
            Refusal::AddressList => "the address list differs",
            Refusal::OtherInterval => "the interval differs",
            Refusal::VridZero => "VRID 0",
            Refusal::PriorityZero => "priority 0",
            Refusal::IntervalZero => "interval 0",
            Refusal::AddressBytes => "the address bytes are no 1 to 16 addresses",
            Refusal::VridTaken => "the VRID is in the table already",
            Refusal::NoFreePlace => "no place is free",
            Refusal::NoRouter => "the VRID is not in the table",
            Refusal::NotInInitialize => "the router is not in Initialize",
            Refusal::Room(_) => "the output room is too small",
            Refusal::UnknownKind => "unknown kind",
            Refusal::BodyCutOff => "the body is cut off",
            Refusal::NotOneSegment => "the first record is no segment, or it is a second one",
            Refusal::UnusedStation => "unused station number",
            Refusal::SeventeenthStation => "a seventeenth station",
            Refusal::NothingToDeliver => "from equals to, or from has sent nothing",
            Refusal::PreemptAboveOne => "preempt is above 1",
            Refusal::ScriptTooLong => "the script is too long",
        })
    }
}
