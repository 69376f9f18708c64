// A packet that the host hands over.
#![tactic(auto)]

ghost use Rattle.std.specs.Prelude.{◌≡◌};
ghost use Rattle.wire.specs.Refusal.{number_answered};
ghost use Rattle.states.specs.Turn.{turn_of};
ghost use Rattle.events.specs.Result.{Leaves, router_place, acted_of};
ghost use Rattle.packets.specs.Packets.{refusal_at, accepted_at, heard_at, sought_at, heard_of};

use events::acting::{act, change, seek};
use events::answer::Done;
use events::heard::Heard;
use events::lists::{list_at, lists_match};
use judging::{Fields, judge};
use places::interface::{count_refusal, primary};
use places::place::{Place, count_at_place, load};
use router::accept::{count_accepted, router_refusal};
use states::record::Turn;
use states::step::{Event, Writes, turn};
use wire::refusal::Refusal;

// The first of refusals 10 to 13 that the router at a place gives a packet, if any.
fn refusal_at(
    words: &[u32; 4096],
    lists: &[u8; 16320],
    place: Place,
    heard: Heard,
) -> Result<(), Refusal>
    ensures { number_answered result ≡ refusal_at words.now lists.now place heard.entry.packet.now heard.entry.fields }
{
    let own = load(words, place);
    let same = lists_match(list_at(lists, place, own.count).bytes, heard.list());
    router_refusal(own, heard.fields, same)
}

// What an accepted packet changes of the router at a place.
fn turn_at(words: &[u32; 4096], place: Place, fields: Fields) -> Turn
    ensures { result ≡ turn_of (accepted_at words.now place fields) }
{
    let event = Event::Packet(fields.priority, fields.source);
    turn(count_accepted(load(words, place)), primary(words), event)
}

// The router at a place takes a packet that passed refusals 1 to 13, or refuses by 22. Most have it write nothing.
fn accept_at(
    words: &mut [u32; 4096],
    lists: &[u8; 16320],
    place: Place,
    fields: Fields,
    out: &mut [u8],
) -> Result<Done, Refusal>
    ensures { Leaves
        (acted_of words.old lists.now place (accepted_at words.old place fields) 0
        out.old)
        result words.new out.new }
{
    let changes = turn_at(words, place, fields);
    if matches!(changes.writes, Writes::Nothing) {
        change(words, place, true, changes);
        return Ok(Done {
            written: 0,
            leftover: 0,
        });
    }
    act(words, lists, place, true, changes, 0, out)
}

// The router at a place hears a packet that passed refusals 1 to 9: it refuses by 10 to 13, which it counts, or by 22.
fn hear_at(
    words: &mut [u32; 4096],
    lists: &[u8; 16320],
    place: Place,
    heard: Heard,
    out: &mut [u8],
) -> Result<Done, Refusal>
    ensures { Leaves
        (heard_at words.old lists.now place heard.entry.packet.now heard.entry.fields out.old)
        result words.new out.new }
{
    if let Err(refusal) = refusal_at(words, lists, place, heard) {
        count_at_place(words, place, refusal);
        return Err(refusal);
    }
    accept_at(words, lists, place, heard.fields, out)
}

// The router that a judged packet is for hears it; where there is none, refuses by 9, which is counted.
fn hear_judged(
    words: &mut [u32; 4096],
    lists: &[u8; 16320],
    heard: Heard,
    out: &mut [u8],
) -> Result<Done, Refusal>
    ensures { Leaves
        (sought_at (router_place words.old heard.entry.fields.vrid) words.old lists.now
        heard.entry.packet.now heard.entry.fields out.old)
        result words.new out.new }
{
    match seek(words, heard.fields.vrid) {
        Some(place) => hear_at(words, lists, place, heard, out),
        None => {
            count_refusal(words, Refusal::UnknownVrid);
            Err(Refusal::UnknownVrid)
        }
    }
}

// A packet of any bytes: done, or the first of refusals 1 to 13, which is counted, and 22.
pub fn hear(
    words: &mut [u32; 4096],
    lists: &[u8; 16320],
    packet: &[u8],
    out: &mut [u8],
) -> Result<Done, Refusal>
    ensures { Leaves
        (heard_of words.old lists.now packet.now out.old)
        result words.new out.new }
{
    match judge(packet) {
        Ok(fields) => hear_judged(words, lists, Heard { packet, fields }, out),
        Err(refusal) => {
            count_refusal(words, refusal);
            Err(refusal)
        }
    }
}
