// What a record does that is taken.
#![tactic(auto)]

ghost use Rattle.std.specs.Prelude.{◌≡◌, [], ◌≤◌, ◌+◌, Some, false, length, set};
ghost use Rattle.script.specs.Record.{station_in, after_record};
ghost use Rattle.script.specs.Progress.{segment_of, read_in, new_number};
ghost use Rattle.script.specs.Kinds.{body_length};

use script::kinds::Kind;
use script::progress::Reading;
use script::record::Record;
use station::making::new_station;
use station::station::Station;
use stations::list;

// The station that a body describes stands at the first number that is not used; past the end nothing is done.
fn add_station(stations: &mut [Station; 16], reading: Reading, body: &[u8])
    requires { 6 ≤ length body.now }
    ensures { stations.new ≡ set stations.old reading.used (station_in (segment_of [] reading) body.now) }
{
    let made = new_station(
        reading.vrid,
        body[0],
        reading.interval,
        body[1] == 1,
        u32::from_be_bytes([body[2], body[3], body[4], body[5]]),
        &reading.address,
    );
    if reading.used < 16 {
        stations[reading.used] = made.station;
    }
}

// Does to the stations what a record says that is taken. No script sees the answer of a step.
#[tactic(auto, unfolding(passing::specs::Passing::fresh_room))]
pub fn step_stations(stations: &mut [Station; 16], reading: Reading, taken: Record)
    ensures { stations.new ≡ (after_record (Some taken.entry.kind) (segment_of stations.old reading)
        taken.entry.body.now).stations }
{
    let body = taken.body;
    let mut out = [0; 786];
    match taken.kind {
        Kind::NewSegment => {}
        Kind::NewStation => add_station(stations, reading, body),
        Kind::Startup => {
            let _ = list::startup(stations, usize::from(body[0]), &mut out);
        }
        Kind::Shutdown => {
            let _ = list::shutdown(stations, usize::from(body[0]), &mut out);
        }
        Kind::Clock => {
            let ticks = u16::from_be_bytes([body[0], body[1]]);
            list::pass_first(stations, reading.used, u32::from(ticks))
        }
        Kind::Deliver => {
            let _ = list::deliver(
                stations,
                usize::from(body[0]),
                usize::from(body[1]),
                &mut out,
            );
        }
    }
}

// How far the script is read after a record that is taken.
pub fn reading_after(reading: Reading, taken: Record) -> Reading
    requires number_bound { new_number (Some taken.kind) reading.used ≤ 15 }
    requires at_bound { (reading.at ≤ 65535) × (reading.number ≤ 65536) }
    ensures { result ≡ read_in (after_record (Some taken.entry.kind) (segment_of [] reading) taken.entry.body.now)
        (reading.at + 1 + body_length (Some taken.entry.kind)) (reading.number + 1) false }
{
    let body = taken.body;
    let next = Reading {
        at: reading.at + 1 + taken.kind.body_length(),
        number: reading.number + 1,
        done: false,
        ..reading
    };
    match taken.kind {
        Kind::NewSegment => Reading {
            vrid: body[0],
            interval: body[1],
            address: [body[2], body[3], body[4], body[5]],
            begun: true,
            ..next
        },
        Kind::NewStation => Reading {
            used: reading.used + 1,
            ..next
        },
        _ => next,
    }
}
