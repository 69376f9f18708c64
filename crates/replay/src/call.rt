// The call that a record makes.
use events::answer::Done;
use judging::judge;
use records::reading::{Fault, Room, flag_of, read_bytes, read_head};
use std::io::Read;
use table::calls::{clock, configure, empty, packet, question, remove, shutdown, startup};
use wire::refusal::Refusal;

// A call, with what it is given and how large a room is lent to it.
#[derive(Clone, Copy)]
pub enum Call<'a> {
    // makes a new empty table
    Empty {
        primary: u32,
    },
    Configure {
        vrid: u8,
        priority: u8,
        interval: u8,
        preempt: bool,
        addresses: &'a [u8],
    },
    Remove {
        vrid: u8,
    },
    Startup {
        vrid: u8,
        room: Room,
    },
    Shutdown {
        vrid: u8,
        room: Room,
    },
    Clock {
        vrid: u8,
        ticks: u32,
        room: Room,
    },
    Packet {
        room: Room,
        bytes: &'a [u8],
    },
    Question {
        vrid: u8,
    },
}

// How a call without a room is done.
const DONE: Done = Done {
    written: 0,
    leftover: 0,
};

// The VRID that a packet bears, unless it is refused by 1 to 8.
fn borne(packet: &[u8]) -> Option<u8> {
    match judge(packet) {
        Ok(fields) => Some(fields.vrid),
        Err(_) => None,
    }
}

// Reads VRID, priority, interval, preempt, how many address bytes, and those.
fn read_configure<'a, R: Read>(
    memory: &'a mut [u8; 65535],
    input: &mut R,
) -> Result<Call<'a>, Fault> {
    let [vrid, priority, interval, preempt, high, low] = read_head::<R, 6>(input)?;
    let addresses = read_bytes(memory, input, u16::from_be_bytes([high, low]))?;
    Ok(Call::Configure {
        vrid,
        priority,
        interval,
        preempt: flag_of(preempt)?,
        addresses,
    })
}

// Reads the room, how many bytes the packet has, and those.
fn read_packet<'a, R: Read>(memory: &'a mut [u8; 65535], input: &mut R) -> Result<Call<'a>, Fault> {
    let [room_high, room_low, high, low] = read_head::<R, 4>(input)?;
    let bytes = read_bytes(memory, input, u16::from_be_bytes([high, low]))?;
    let room = Room::try_from([room_high, room_low])?;
    Ok(Call::Packet { room, bytes })
}

impl Call<'_> {
    // Reads the rest of a call of this kind, its fields in their order and its bytes into memory that is lent. A bad one is read
    // to its end all the same.
    pub fn read<'a, R: Read>(
        memory: &'a mut [u8; 65535],
        kind: u8,
        input: &mut R,
    ) -> Result<Call<'a>, Fault> {
        match kind {
            1 => Ok(Call::Empty {
                primary: u32::from_be_bytes(read_head(input)?),
            }),
            2 => read_configure(memory, input),
            3 => {
                let [vrid] = read_head::<R, 1>(input)?;
                Ok(Call::Remove { vrid })
            }
            4 => {
                let [vrid, high, low] = read_head::<R, 3>(input)?;
                let room = Room::try_from([high, low])?;
                Ok(Call::Startup { vrid, room })
            }
            5 => {
                let [vrid, high, low] = read_head::<R, 3>(input)?;
                let room = Room::try_from([high, low])?;
                Ok(Call::Shutdown { vrid, room })
            }
            6 => {
                let [vrid, a, b, c, d, high, low] = read_head::<R, 7>(input)?;
                let ticks = u32::from_be_bytes([a, b, c, d]);
                let room = Room::try_from([high, low])?;
                Ok(Call::Clock { vrid, ticks, room })
            }
            7 => read_packet(memory, input),
            8 => {
                let [vrid] = read_head::<R, 1>(input)?;
                Ok(Call::Question { vrid })
            }
            _ => Err(Fault::BadRecord),
        }
    }

    // Makes the call.
    pub fn make(
        self,
        words: &mut [u32; 4096],
        lists: &mut [u8; 16320],
        out: &mut [u8],
    ) -> Result<Done, Refusal> {
        match self {
            Call::Empty { primary } => {
                empty(words, primary);
                Ok(DONE)
            }
            Call::Configure {
                vrid,
                priority,
                interval,
                preempt,
                addresses,
            } => configure(words, lists, vrid, priority, interval, preempt, addresses).and(Ok(
                DONE,
            )),
            Call::Remove { vrid } => remove(words, vrid).and(Ok(DONE)),
            Call::Startup { vrid, .. } => startup(words, lists, vrid, out),
            Call::Shutdown { vrid, .. } => shutdown(words, lists, vrid, out),
            Call::Clock { vrid, ticks, .. } => clock(words, lists, vrid, ticks, out),
            Call::Packet { bytes, .. } => packet(words, lists, bytes, out),
            Call::Question { vrid } => question(words, vrid).and(Ok(DONE)),
        }
    }

    // The room that it is lent.
    pub fn room(self) -> Room {
        match self {
            Call::Startup { room, .. }
            | Call::Shutdown { room, .. }
            | Call::Clock { room, .. }
            | Call::Packet { room, .. } => room,
            _ => Room { size: 0 },
        }
    }

    // The VRID of the router that the line shows: a new table has none.
    pub fn shown(self) -> Option<u8> {
        match self {
            Call::Empty { .. } => None,
            Call::Packet { bytes, .. } => borne(bytes),
            Call::Configure { vrid, .. }
            | Call::Remove { vrid }
            | Call::Startup { vrid, .. }
            | Call::Shutdown { vrid, .. }
            | Call::Clock { vrid, .. }
            | Call::Question { vrid } => Some(vrid),
        }
    }
}
