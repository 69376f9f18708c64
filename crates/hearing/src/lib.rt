// A packet that is handed over to a station.
#![tactic(auto)]

ghost use Rattle.std.specs.Prelude.{◌≡◌, ◌≤◌, Err};
ghost use Rattle.wire.specs.Refusal.{refusal_number, number_answered};
ghost use Rattle.station.specs.Station.{Leaves};
ghost use Rattle.hearing.specs.Hearing.{counted_by, refusal_by, sought_by, heard_by};

use events::heard::Heard;
use events::lists::lists_match;
use judging::judge;
use router::accept::{count_accepted, count_refusal, router_refusal};
use states::step::{Event, step};
use station::acting::act;
use station::station::{Station, Stepped};
use wire::refusal::Refusal;

// Refuses by 1 to 9, which counts.
#[tactic(auto, unfolding(crate::specs::Hearing::counted_by))]
fn refuse(s: Station, refusal: Refusal) -> Stepped
    requires { refusal_number refusal ≤ 9 }
    ensures answer { result.answer ≡ Err refusal }
    ensures station { result.station ≡ counted_by s (refusal_number refusal) }
{
    let mut refusals = s.refusals;
    let at = (refusal.number() - 1) as usize;
    refusals[at] = refusals[at].wrapping_add(1);
    Stepped {
        station: Station { refusals, ..s },
        answer: Err(refusal),
    }
}

// The first of refusals 10 to 13 that a station's router gives a packet.
fn refusal_of(s: Station, heard: Heard) -> Result<(), Refusal>
    ensures { number_answered result ≡ refusal_by s heard.entry.packet.now heard.entry.fields }
{
    router_refusal(
        s.router,
        heard.fields,
        lists_match(s.list().bytes, heard.list()),
    )
}

// A judged packet: 9 where it is for another virtual router, or no router is there; else the router hears it.
fn hear_judged(s: Station, heard: Heard, out: &mut [u8]) -> Stepped
    ensures { Leaves (sought_by s heard.entry.packet.now heard.entry.fields out.old) result out.new }
{
    let fields = heard.fields;
    if s.router.vrid == 0 || fields.vrid != s.router.vrid {
        return refuse(s, Refusal::UnknownVrid);
    }
    if let Err(refusal) = refusal_of(s, heard) {
        return Stepped {
            station: Station {
                router: count_refusal(s.router, refusal),
                ..s
            },
            answer: Err(refusal),
        };
    }
    let event = Event::Packet(fields.priority, fields.source);
    act(s, step(count_accepted(s.router), s.primary, event), 0, out)
}

// A packet of any bytes: done, or the first of refusals 1 to 13 and 22.
// Kept: apart from `packets::hear`, which changes lent words in place: `PacketInTable` says that both leave the same.
pub fn hear(s: Station, packet: &[u8], out: &mut [u8]) -> Stepped
    ensures { Leaves (heard_by s packet.now out.old) result out.new }
{
    match judge(packet) {
        Ok(fields) => hear_judged(s, Heard { packet, fields }, out),
        Err(refusal) => refuse(s, refusal),
    }
}
