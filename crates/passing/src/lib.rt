// Time for one station, firing as often as due.
#![tactic(auto)]

ghost use Rattle.std.specs.Prelude.{◌≡◌, ◌-◌, ◌%◌};
ghost use Rattle.passing.specs.Passing.{passed};
ghost use Rattle.passing.specs.Elapsed.{due_in, counts_in, fired_of, elapsed_of};

use states::record::{Counts, Router, State};
use states::timers::advertisement_interval;
use station::station::Station;
use writing::frame::Advertisement;

// Whether the timer fires within so many ticks.
#[tactic(auto, unfolding(crate::specs::Elapsed::due_in))]
fn due(own: Router, ticks: u32) -> bool
    ensures { result ≡ due_in own ticks }
{
    own.state != State::Initialize && own.timer <= ticks
}

// The counts after a fire: a Backup became Master.
fn fired_counts(own: Router) -> Counts
    ensures { result ≡ counts_in own.state own.counts }
{
    match own.state {
        State::Initialize | State::Master => own.counts,
        State::Backup => Counts {
            became: own.counts.became.wrapping_add(1),
            ..own.counts
        },
    }
}

// What remains of the last interval, so many ticks after a first fire; of an interval of 0, nothing.
#[tactic(auto, using(crate::proofs::Firing::rest_below))]
fn remaining(interval: u32, left: u32) -> u32
    ensures { result ≡ interval - left % interval }
{
    if interval == 0 {
        return 0;
    }
    interval - left % interval
}

// The router after its fires, of which the first left so many ticks. Each further one leaves the very router, a Master
// whose timer is full.
#[tactic(auto, unfolding(crate::specs::Elapsed::fired_of))]
fn fired(own: Router, left: u32) -> Router
    ensures { result ≡ fired_of own left }
{
    Router {
        state: State::Master,
        timer: remaining(advertisement_interval(own.interval), left),
        counts: fired_counts(own),
        ..own
    }
}

// The router when so many ticks have passed; where none is there, nothing passes.
#[tactic(auto, unfolding(crate::specs::Elapsed::elapsed_of))]
fn elapsed(own: Router, ticks: u32) -> Router
    ensures { result ≡ elapsed_of own ticks }
{
    if own.vrid == 0 || own.state == State::Initialize {
        return own;
    }
    if own.timer <= ticks {
        return fired(own, ticks - own.timer);
    }
    Router {
        timer: own.timer - ticks,
        ..own
    }
}

// Lets so many ticks pass; where no router is there, all stays. However often it fires, the frame is its own advertisement,
// written once.
pub fn pass(s: Station, ticks: u32) -> Station
    ensures { result ≡ passed s ticks }
{
    let own = s.router;
    let mut after = Station {
        router: elapsed(own, ticks),
        ..s
    };
    if own.vrid != 0 && due(own, ticks) {
        let advertisement = Advertisement {
            vrid: own.vrid,
            priority: own.priority,
            interval: own.interval,
            primary: s.primary,
            addresses: s.list(),
        };
        advertisement.put(&mut after.frame);
        after.sent = 50 + advertisement.addresses.bytes.len();
    }
    after
}
