// Startup, shutdown, clock and questions on the router of a VRID.
#![tactic(auto)]

pub mod answer; // how a call that is done ends
pub mod lists; // address lists in lent bytes
pub mod heard; // a packet that was judged
pub mod acting; // an event's outcome at a place

ghost use Rattle.std.specs.Prelude.{Some};
ghost use Rattle.states.specs.Step.{step_of};
ghost use Rattle.places.specs.Place.{primary_of, record_at};
ghost use Rattle.events.specs.Result.{Leaves, acted_of};
ghost use Rattle.events.specs.Events.{happened_of, clocked_at, clocked_of, asked_of, Tells};

use crate::acting::{act, seek};
use crate::answer::Done;
use places::interface::primary;
use places::place::{Place, in_initialize, load, store_timer, timer};
use states::record::Router;
use states::step::{Event, turn};
use wire::refusal::Refusal;

// An event for the router at a place; refuses by 22.
#[tactic(auto, using(crate::proofs::Acted::turned_step, crate::proofs::Sought::leaves_equal))]
fn happen_at(
    words: &mut [u32; 4096],
    lists: &[u8; 16320],
    place: Place,
    event: Event,
    out: &mut [u8],
) -> Result<Done, Refusal>
    ensures { Leaves
        (acted_of words.old lists.now place
        (step_of (primary_of words.old) (record_at words.old place) event) 0 out.old)
        result words.new out.new }
{
    let changes = turn(load(words, place), primary(words), event);
    act(words, lists, place, false, changes, 0, out)
}

// Startup or shutdown of a virtual router; refuses by 20 or 22.
#[tactic(auto, unfolding(crate::specs::Events::happened_of))]
pub fn happen(
    words: &mut [u32; 4096],
    lists: &[u8; 16320],
    vrid: u8,
    event: Event,
    out: &mut [u8],
) -> Result<Done, Refusal>
    ensures { Leaves (happened_of words.old lists.now vrid event out.old)
        result words.new out.new }
{
    match seek(words, vrid) {
        Some(place) => happen_at(words, lists, place, event, out),
        None => Err(Refusal::NoRouter),
    }
}

// A clock step for the router at a place: in Initialize nothing happens, else the timer falls, or it fires, or that is
// refused by 22.
// Kept: apart from `router::clock`, since a step that does not fire changes one lent word: `ClockInTable` ties them.
fn tick_at(
    words: &mut [u32; 4096],
    lists: &[u8; 16320],
    place: Place,
    ticks: u32,
    out: &mut [u8],
) -> Result<Done, Refusal>
    ensures { Leaves
        (clocked_at (Some place) words.old lists.now ticks out.old)
        result words.new out.new }
{
    if in_initialize(words, place) {
        return Ok(Done {
            written: 0,
            leftover: 0,
        });
    }
    let remaining = timer(words, place);
    if ticks < remaining {
        store_timer(words, place, remaining - ticks);
        return Ok(Done {
            written: 0,
            leftover: 0,
        });
    }
    let changes = turn(load(words, place), primary(words), Event::Timer);
    act(words, lists, place, false, changes, ticks - remaining, out)
}

// A clock step of a virtual router; refuses by 20 or 22.
#[tactic(auto, unfolding(crate::specs::Events::clocked_of))]
pub fn tick(
    words: &mut [u32; 4096],
    lists: &[u8; 16320],
    vrid: u8,
    ticks: u32,
    out: &mut [u8],
) -> Result<Done, Refusal>
    ensures { Leaves (clocked_of words.old lists.now vrid ticks out.old)
        result words.new out.new }
{
    match seek(words, vrid) {
        Some(place) => tick_at(words, lists, place, ticks, out),
        None => Err(Refusal::NoRouter),
    }
}

// What a virtual router is at: its record, or refusal 20.
#[tactic(auto, unfolding(crate::specs::Events::asked_of))]
pub fn tell(words: &[u32; 4096], vrid: u8) -> Result<Router, Refusal>
    ensures { Tells (asked_of words.now vrid) result }
{
    match seek(words, vrid) {
        Some(place) => Ok(load(words, place)),
        None => Err(Refusal::NoRouter),
    }
}
