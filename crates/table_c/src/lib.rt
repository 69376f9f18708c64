// The table's calls as the benchmark makes them from C: thin over `table`, answering 0 or the refusal's number alone.
#![tactic(auto)]

ghost use Rattle.std.specs.Prelude.{◌≡◌};
ghost use Rattle.states.specs.declared.step.Event.TheVariants.{Startup};
ghost use Rattle.configuring.specs.Configuring.{empty_of, Configured};
ghost use Rattle.events.specs.Events.{happened_of, clocked_of};
ghost use Rattle.packets.specs.Packets.{heard_of};
ghost use Rattle.table_c.specs.Numbered.{Numbered};

use table::calls::{clock, configure, empty, packet, startup};
use wire::refusal::number_of;

// Makes an empty table of an interface with this primary address.
#[unsafe(no_mangle)]
pub extern "C" fn table_empty(words: &mut [u32; 4096], primary: u32)
    ensures { words.new ≡ empty_of primary }
{
    empty(words, primary)
}

// Configures a virtual router: 0, or the first of refusals 14 to 19.
#[unsafe(no_mangle)]
pub extern "C" fn table_configure(
    words: &mut [u32; 4096],
    lists: &mut [u8; 16320],
    vrid: u8,
    priority: u8,
    interval: u8,
    preempt: bool,
    addresses: &[u8],
) -> u32
    ensures { Configured words.old lists.old vrid priority interval preempt
        addresses.now result words.new lists.new }
{
    number_of(configure(words, lists, vrid, priority, interval, preempt, addresses))
}

// Starts a virtual router up: 0, 20 or 22.
#[unsafe(no_mangle)]
pub extern "C" fn table_startup(
    words: &mut [u32; 4096],
    lists: &[u8; 16320],
    vrid: u8,
    out: &mut [u8],
) -> u32
    ensures { Numbered (happened_of words.old lists.now vrid Startup out.old)
        result words.new out.new }
{
    number_of(startup(words, lists, vrid, out))
}

// Lets so many ticks pass for a virtual router: 0, 20 or 22.
#[unsafe(no_mangle)]
pub extern "C" fn table_clock(
    words: &mut [u32; 4096],
    lists: &[u8; 16320],
    vrid: u8,
    ticks: u32,
    out: &mut [u8],
) -> u32
    ensures { Numbered (clocked_of words.old lists.now vrid ticks out.old)
        result words.new out.new }
{
    number_of(clock(words, lists, vrid, ticks, out))
}

// Hands a packet over: 0, or the first of refusals 1 to 13 and 22.
#[unsafe(no_mangle)]
pub extern "C" fn table_packet(
    words: &mut [u32; 4096],
    lists: &[u8; 16320],
    bytes: &[u8],
    out: &mut [u8],
) -> u32
    ensures { Numbered (heard_of words.old lists.now bytes.now out.old)
        result words.new out.new }
{
    number_of(packet(words, lists, bytes, out))
}
