// A clock step for one router.
ghost use Rattle.std.specs.Prelude.{◌≡◌, if◌then◌else◌, nat_lt};
ghost use Rattle.router.specs.Clock.{falls, fires, ticked_of};

use states::record::{Router, State};
use states::step::{Event, Outcome, stay, step};

#[derive(Clone, Copy)]
pub struct Ticked {
    pub outcome: Outcome,
    // what is left of the ticks where the timer fired
    pub leftover: u32,
}

// So many ticks of a timer that runs.
fn run(r: Router, primary: u32, ticks: u32) -> Ticked
    ensures { result ≡ (if nat_lt ticks r.timer then falls r ticks else fires primary r ticks) }
{
    if ticks < r.timer {
        let router = Router {
            timer: r.timer - ticks,
            ..r
        };
        return Ticked {
            outcome: stay(router),
            leftover: 0,
        };
    }
    Ticked {
        outcome: step(r, primary, Event::Timer),
        leftover: ticks - r.timer,
    }
}

// A clock step: the timer falls, or fires once and the ticks left over are told. Initialize has no timer.
#[tactic(auto, unfolding(crate::specs::Clock::ticked_of))]
pub fn clock(r: Router, primary: u32, ticks: u32) -> Ticked
    ensures { result ≡ ticked_of primary r ticks }
{
    match r.state {
        State::Initialize => Ticked {
            outcome: stay(r),
            leftover: 0,
        },
        State::Backup | State::Master => run(r, primary, ticks),
    }
}
