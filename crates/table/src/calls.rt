// The calls of the table, for any memory and any argument.
ghost use Rattle.std.specs.Prelude.{◌≡◌};
ghost use Rattle.wire.specs.Refusal.{number_answered};
ghost use Rattle.states.specs.declared.step.Event.TheVariants.{Startup, Shutdown};
ghost use Rattle.events.specs.Result.{Leaves};
ghost use Rattle.configuring.specs.Configuring.{empty_of, Configured, Removed};
ghost use Rattle.events.specs.Events.{happened_of, clocked_of, asked_of, Tells, interface_count};
ghost use Rattle.packets.specs.Packets.{heard_of};

use configuring::{Settings, clear, free, set_up};
use events::answer::Done;
use events::{happen, tell, tick};
use packets::hear;
use places::interface::refusal_count;
use states::record::Router;
use states::step::Event;
use wire::refusal::Refusal;

// Makes an empty table of an interface with this primary address.
pub fn empty(words: &mut [u32; 4096], primary: u32)
    ensures { words.new ≡ empty_of primary }
{
    clear(words, primary)
}

// Configures a virtual router, or answers the first of refusals 14 to 19.
pub fn configure(
    words: &mut [u32; 4096],
    lists: &mut [u8; 16320],
    vrid: u8,
    priority: u8,
    interval: u8,
    preempt: bool,
    addresses: &[u8],
) -> Result<(), Refusal>
    ensures { Configured words.old lists.old vrid priority interval preempt
        addresses.now (number_answered result) words.new lists.new }
{
    let settings = Settings {
        vrid,
        priority,
        interval,
        preempt,
    };
    set_up(words, lists, settings, addresses)
}

// Removes a virtual router in Initialize, or refuses by 20 or 21.
pub fn remove(words: &mut [u32; 4096], vrid: u8) -> Result<(), Refusal>
    ensures { Removed words.old vrid (number_answered result) words.new }
{
    free(words, vrid)
}

// Starts a virtual router up, or refuses by 20 or 22.
pub fn startup(
    words: &mut [u32; 4096],
    lists: &[u8; 16320],
    vrid: u8,
    out: &mut [u8],
) -> Result<Done, Refusal>
    ensures { Leaves (happened_of words.old lists.now vrid Startup out.old)
        result words.new out.new }
{
    happen(words, lists, vrid, Event::Startup, out)
}

// Shuts a virtual router down, or refuses by 20 or 22.
pub fn shutdown(
    words: &mut [u32; 4096],
    lists: &[u8; 16320],
    vrid: u8,
    out: &mut [u8],
) -> Result<Done, Refusal>
    ensures { Leaves (happened_of words.old lists.now vrid Shutdown out.old)
        result words.new out.new }
{
    happen(words, lists, vrid, Event::Shutdown, out)
}

// Lets so many ticks pass for a virtual router, or refuses by 20 or 22.
pub fn clock(
    words: &mut [u32; 4096],
    lists: &[u8; 16320],
    vrid: u8,
    ticks: u32,
    out: &mut [u8],
) -> Result<Done, Refusal>
    ensures { Leaves (clocked_of words.old lists.now vrid ticks out.old)
        result words.new out.new }
{
    tick(words, lists, vrid, ticks, out)
}

// Hands a packet over: done, or the first of refusals 1 to 13 and 22.
pub fn packet(
    words: &mut [u32; 4096],
    lists: &[u8; 16320],
    packet: &[u8],
    out: &mut [u8],
) -> Result<Done, Refusal>
    ensures { Leaves
        (heard_of words.old lists.now packet.now out.old)
        result words.new out.new }
{
    hear(words, lists, packet, out)
}

// What a virtual router is at: its record, or refusal 20.
pub fn question(words: &[u32; 4096], vrid: u8) -> Result<Router, Refusal>
    ensures { Tells (asked_of words.now vrid) result }
{
    tell(words, vrid)
}

// How often a refusal of 1 to 9 was given; 0 for any other number.
// Kept: a number: this promise has an answer for any.
#[tactic(auto, unfolding(events::specs::Events::interface_count))]
pub fn interface_count(words: &[u32; 4096], number: usize) -> u32
    ensures { result ≡ interface_count words.now number }
{
    match number {
        1..=9 => refusal_count(words, number),
        _ => 0,
    }
}
