// A case as it is read.
use records::reading::{Fault, Room, read_bytes, read_head};
use std::io::Read;

// What is handed to judging or writing.
#[derive(Clone, Copy)]
pub enum Case<'a> {
    Judge {
        packet: &'a [u8],
    },
    Advertisement {
        vrid: u8,
        priority: u8,
        interval: u8,
        primary: u32,
        room: Room,
        addresses: &'a [u8],
    },
    Arp {
        vrid: u8,
        address: u32,
        room: Room,
    },
}

// Reads VRID, priority, interval, primary address, room, how many address bytes, and those.
fn read_advertisement<'a, R: Read>(
    memory: &'a mut [u8; 65535],
    input: &mut R,
) -> Result<Case<'a>, Fault> {
    let [
        vrid,
        priority,
        interval,
        a,
        b,
        c,
        d,
        room_high,
        room_low,
        high,
        low,
    ] = read_head::<R, 11>(input)?;
    let addresses = read_bytes(memory, input, u16::from_be_bytes([high, low]))?;
    Ok(Case::Advertisement {
        vrid,
        priority,
        interval,
        primary: u32::from_be_bytes([a, b, c, d]),
        room: Room::try_from([room_high, room_low])?,
        addresses,
    })
}

impl Case<'_> {
    // Reads the rest of a case of this kind, its bytes into memory that is lent. A bad one is read to its end all the same.
    pub fn read<'a, R: Read>(
        memory: &'a mut [u8; 65535],
        kind: u8,
        input: &mut R,
    ) -> Result<Case<'a>, Fault> {
        match kind {
            // how many bytes, and those
            1 => {
                let size = u16::from_be_bytes(read_head(input)?);
                Ok(Case::Judge {
                    packet: read_bytes(memory, input, size)?,
                })
            }
            2 => read_advertisement(memory, input),
            // VRID, address, room
            3 => {
                let [vrid, a, b, c, d, high, low] = read_head::<R, 7>(input)?;
                Ok(Case::Arp {
                    vrid,
                    address: u32::from_be_bytes([a, b, c, d]),
                    room: Room::try_from([high, low])?,
                })
            }
            _ => Err(Fault::BadRecord),
        }
    }
}
