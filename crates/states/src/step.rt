// The state-by-event table (RFC 3768 section 6.4), as one match.
ghost use Rattle.std.specs.Prelude.{◌≡◌, ◌≤◌};
ghost use Rattle.states.specs.Step.{state_number, event_number, event_priority, event_source};
ghost use Rattle.states.specs.declared.record.State.TheVariants.{Master};
ghost use Rattle.states.specs.Timers.{advertisement_interval_of};
ghost use Rattle.states.specs.Step.{stays, enters, waits, hurries, stops};
ghost use Rattle.states.specs.Step.{heard_by_backup, heard_by_master, step_of};
ghost use Rattle.states.specs.Turn.{turn_of, became_by, applied_to};

use crate::record::{Counts, Router, State, Turn};
use crate::timers::{advertisement_interval, master_down, skew};

#[derive(Clone, Copy)]
pub enum Event {
    Startup,
    Shutdown,
    Timer,
    // a packet that passed every check: its priority and its source address
    Packet(u8, u32),
}

// What an event has the router write.
#[derive(Clone, Copy)]
pub enum Writes {
    Nothing,
    Advertisement,
    // an advertisement with priority 0
    Farewell,
    // an advertisement, and an ARP frame for each address
    Takeover,
}

#[derive(Clone, Copy)]
pub struct Outcome {
    pub router: Router,
    pub writes: Writes,
}

pub fn state_number(state: State) -> u32
    ensures number { result ≡ state_number state }
    ensures bound { result ≤ 2 }
{
    state as u32
}

fn event_number(event: Event) -> u32
    ensures number { result ≡ event_number event }
    ensures bound { result ≤ 3 }
{
    match event {
        Event::Startup => 0,
        Event::Shutdown => 1,
        Event::Timer => 2,
        Event::Packet(_, _) => 3,
    }
}

// The priority that an event turns on: a packet's own, else the router's.
fn event_priority(event: Event, priority: u8) -> u8
    ensures { result ≡ event_priority event priority }
{
    match event {
        Event::Startup | Event::Shutdown | Event::Timer => priority,
        Event::Packet(theirs, _) => theirs,
    }
}

fn event_source(event: Event) -> u32
    ensures { result ≡ event_source event }
{
    match event {
        Event::Startup | Event::Shutdown | Event::Timer => 0,
        Event::Packet(_, source) => source,
    }
}

// The router as it is.
pub fn stay(r: Router) -> Outcome
    ensures { result ≡ stays r }
{
    Outcome {
        router: r,
        writes: Writes::Nothing,
    }
}

// Nothing changes.
fn no_change(r: Router) -> Turn
    ensures { result ≡ turn_of (stays r) }
{
    Turn {
        state: r.state,
        timer: r.timer,
        writes: Writes::Nothing,
    }
}

// Backup, with the whole master down interval to wait.
fn wait(r: Router) -> Turn
    ensures { result ≡ turn_of (waits r) }
{
    Turn {
        state: State::Backup,
        timer: master_down(r.priority, r.interval),
        writes: Writes::Nothing,
    }
}

// The same with only the skew to wait: the Master has left.
fn hurry(r: Router) -> Turn
    ensures { result ≡ turn_of (hurries r) }
{
    Turn {
        timer: skew(r.priority),
        ..wait(r)
    }
}

// Initialize, with no timer.
fn stop(r: Router, writes: Writes) -> Turn
    ensures { result ≡ turn_of (stops r writes) }
{
    Turn {
        state: State::Initialize,
        timer: 0,
        writes,
    }
}

// Master, advertising; a takeover writes ARP frames too.
fn advertise(r: Router, writes: Writes) -> Turn
    ensures { result ≡ turn_of (enters r Master (advertisement_interval_of r.interval) writes) }
{
    Turn {
        state: State::Master,
        timer: advertisement_interval(r.interval),
        writes,
    }
}

// A Backup that hears a priority of 1 or more.
fn hear_as_backup(r: Router, theirs: u8) -> Turn
    ensures { result ≡ turn_of (heard_by_backup r theirs) }
{
    if !r.preempt || r.priority <= theirs {
        return wait(r);
    }
    no_change(r)
}

// A Master that hears a priority of 1 or more: addresses are compared as 32-bit numbers.
fn hear_as_master(r: Router, primary: u32, theirs: u8, source: u32) -> Turn
    ensures { result ≡ turn_of (heard_by_master primary r theirs source) }
{
    if r.priority < theirs || theirs == r.priority && primary < source {
        return wait(r);
    }
    no_change(r)
}

// What one event changes of one router. A row's number is 0xSEPP: state, event, and the priority that it turns on.
// Kept: the table stands as one match on these numbers, with ranges for the priorities 0, 1 to 254 and 255.
pub fn turn(r: Router, primary: u32, event: Event) -> Turn
    ensures { result ≡ turn_of (step_of primary r event) }
{
    let theirs = event_priority(event, r.priority);
    let source = event_source(event);
    let row = 4096 * state_number(r.state) + 256 * event_number(event) + u32::from(theirs);
    match row {
        // Initialize: startup, P = 255; startup, P < 255
        0x00FF => advertise(r, Writes::Takeover),
        0x0000..=0x00FE => wait(r),
        // Backup: shutdown; timer; packet, priority 0; packet, priority 1 or more
        0x1100..=0x11FF => stop(r, Writes::Nothing),
        0x1200..=0x12FF => advertise(r, Writes::Takeover),
        0x1300 => hurry(r),
        0x1301..=0x13FE | 0x13FF => hear_as_backup(r, theirs),
        // Master: shutdown; timer; packet, priority 0; packet, priority 1 or more
        0x2100..=0x21FF => stop(r, Writes::Farewell),
        0x2200..=0x22FF => advertise(r, Writes::Advertisement),
        0x2300 => advertise(r, Writes::Advertisement),
        0x2301..=0x23FE | 0x23FF => hear_as_master(r, primary, theirs, source),
        _ => no_change(r),
    }
}

// How often it became Master: a takeover counts.
fn became_by(writes: Writes, became: u32) -> u32
    ensures { result ≡ became_by writes became }
{
    match writes {
        Writes::Nothing | Writes::Advertisement | Writes::Farewell => became,
        Writes::Takeover => became.wrapping_add(1),
    }
}

// The router with what an event changes, and what it writes.
pub fn applied(r: Router, t: Turn) -> Outcome
    ensures { result ≡ applied_to r t }
{
    let counts = Counts {
        became: became_by(t.writes, r.counts.became),
        ..r.counts
    };
    Outcome {
        router: Router {
            state: t.state,
            timer: t.timer,
            counts,
            ..r
        },
        writes: t.writes,
    }
}

// One event on one router: the router afterwards, and what it writes.
pub fn step(r: Router, primary: u32, event: Event) -> Outcome
    ensures { result ≡ step_of primary r event }
{
    applied(r, turn(r, primary, event))
}
