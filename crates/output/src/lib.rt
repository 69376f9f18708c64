// What an event has a router write into a lent room: an advertisement frame, and ARP frames behind it.
#![tactic(auto)]

ghost use Rattle.std.specs.Prelude.{◌≡◌, ◌*◌, ◌/◌, ◌≤◌, length};
ghost use Rattle.writing.specs.Writing.{over};
ghost use Rattle.output.specs.Output.{arps_of, bytes_of, need_of};

use states::record::Router;
use states::step::Writes;
use writing::addresses::Addresses;
use writing::arp::put_arp;
use writing::frame::Advertisement;

// How many bytes the frames of an event have: the room that putting them takes.
pub fn need(writes: Writes, list: Addresses) -> usize
    ensures { result ≡ need_of writes (length list.entry.bytes.now) }
{
    let frame = 50 + list.bytes.len();
    match writes {
        Writes::Nothing => 0,
        Writes::Advertisement | Writes::Farewell => frame,
        Writes::Takeover => frame + 42 * usize::from(list.count()),
    }
}

// Writes an ARP frame for each address, one behind another, at the start of a room that holds them.
fn put_arps(vrid: u8, list: Addresses, room: &mut [u8])
    requires { 42 * (length list.bytes.now / 4) ≤ length room.old }
    ensures { room.new ≡ over (arps_of vrid list.entry.bytes.now) room.old }
{
    for (k, address) in list.bytes.chunks_exact(4).enumerate() {
        let address = u32::from_be_bytes([address[0], address[1], address[2], address[3]]);
        put_arp(vrid, address, &mut room[42 * k..]);
    }
}

// Writes the frames of an event at the start of a room that holds them.
pub fn put_output(writes: Writes, r: Router, primary: u32, list: Addresses, room: &mut [u8])
    requires { need_of writes (length list.bytes.now) ≤ length room.old }
    ensures { room.new ≡ over (bytes_of writes r primary list.entry.bytes.now) room.old }
{
    let mut advertisement = Advertisement {
        vrid: r.vrid,
        priority: r.priority,
        interval: r.interval,
        primary,
        addresses: list,
    };
    match writes {
        Writes::Nothing => {}
        Writes::Advertisement => advertisement.put(room),
        Writes::Farewell => {
            advertisement.priority = 0;
            advertisement.put(room)
        }
        Writes::Takeover => {
            advertisement.put(room);
            put_arps(r.vrid, list, &mut room[50 + list.bytes.len()..])
        }
    }
}
