// The steps of a station: startup, shutdown, clock and delivery, for any station and any room.
#![tactic(auto)]

ghost use Rattle.states.specs.declared.step.Event.TheVariants.{Startup, Shutdown};
ghost use Rattle.station.specs.Station.{Leaves};
ghost use Rattle.steps.specs.Steps.{stepped_by, happened_to, clocked_by, delivered_to};

use hearing::hear;
use states::step::{Event, Outcome, step};
use station::acting::act;
use station::station::{Station, Stepped};
use wire::refusal::Refusal;

// What an outcome leaves; refuses by 20 where no router is there, and by 22.
fn take_step(s: Station, outcome: Outcome, leftover: u32, out: &mut [u8]) -> Stepped
    ensures { Leaves (stepped_by s outcome leftover out.old) result out.new }
{
    if s.router.vrid == 0 {
        return Stepped {
            station: s,
            answer: Err(Refusal::NoRouter),
        };
    }
    act(s, outcome, leftover, out)
}

// One event on a station's router.
#[tactic(auto, unfolding(crate::specs::Steps::happened_to))]
fn happen(s: Station, event: Event, out: &mut [u8]) -> Stepped
    ensures { Leaves (happened_to s event out.old) result out.new }
{
    take_step(s, step(s.router, s.primary, event), 0, out)
}

// Starts the router up, or refuses by 20 or 22.
pub fn startup(s: Station, out: &mut [u8]) -> Stepped
    ensures { Leaves (happened_to s Startup out.old) result out.new }
{
    happen(s, Event::Startup, out)
}

// Shuts the router down, or refuses by 20 or 22.
pub fn shutdown(s: Station, out: &mut [u8]) -> Stepped
    ensures { Leaves (happened_to s Shutdown out.old) result out.new }
{
    happen(s, Event::Shutdown, out)
}

// Lets so many ticks pass, or refuses by 20 or 22.
#[tactic(auto, unfolding(crate::specs::Steps::clocked_by))]
pub fn clock(s: Station, ticks: u32, out: &mut [u8]) -> Stepped
    ensures { Leaves (clocked_by s ticks out.old) result out.new }
{
    let ticked = router::clock::clock(s.router, s.primary, ticks);
    take_step(s, ticked.outcome, ticked.leftover, out)
}

// Hands the latest advertisement frame of one station, less its 14 Ethernet bytes, to another; refuses by 28 where
// nothing was sent, and by what hearing a packet refuses.
#[tactic(auto, unfolding(crate::specs::Steps::delivered_to))]
pub fn deliver(from: Station, to: Station, out: &mut [u8]) -> Stepped
    ensures { Leaves (delivered_to from to out.old) result out.new }
{
    if from.sent == 0 {
        return Stepped {
            station: to,
            answer: Err(Refusal::NothingToDeliver),
        };
    }
    let frame = &from.frame[..from.sent.min(from.frame.len())];
    hear(to, &frame[frame.len().min(14)..], out)
}
