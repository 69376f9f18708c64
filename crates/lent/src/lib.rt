// Plain parameters above the lent list: a copy of the stations is lent, beside a room for what the step writes.
#![tactic(auto)]

ghost use Rattle.std.specs.Prelude.{◌≡◌, ℕ, List, Result as Ending};
ghost use denote.Ref.{MutBor};
ghost use Rattle.wire.specs.declared.refusal.Refusal.{Refusal};
ghost use Rattle.events.specs.declared.answer.Done.{Done};
ghost use Rattle.station.specs.declared.station.Station.{Station};
ghost use Rattle.passing.specs.Passing.{fresh_room};
ghost use Rattle.lent.specs.Lent.{Moves};
ghost use Rattle.stations.specs.List.{ListResult, LeavesList, started_at, shut_at, clocked_at, all_passed, delivered_at};

use events::answer::Done;
use station::station::Station;
use stations::list;
use wire::refusal::Refusal;

// What a step leaves: all stations, and its answer.
#[derive(Clone, Copy)]
pub struct Moved {
    pub stations: [Station; 16],
    pub answer: Result<Done, Refusal>,
}

// Lends the copy and a fresh room to one call on the list.
#[tactic(auto, unfolding(passing::specs::Passing::fresh_room))]
fn lend<F: FnOnce(&mut [Station], &mut [u8]) -> Result<Done, Refusal>>(
    all: [Station; 16],
    call: F,
) -> Moved
    requires { F.IsAlwaysCallable call }
    ensures { (by : List Station → List ℕ → ListResult)
        → ((lent left : MutBor (List Station)) (room after : MutBor (List ℕ)) (answer : Ending Done Refusal)
        → F.post call lent room answer left after → LeavesList (by lent.now room.now) answer left.now after.now)
        → Moves (by all fresh_room) result }
{
    let mut stations = all;
    let mut out = [0; 786];
    let answer = call(&mut stations, &mut out);
    Moved { stations, answer }
}

// Starts up the station of a number; refuses as `list::startup` does.
pub fn startup_in(all: [Station; 16], at: usize) -> Moved
    ensures { Moves (started_at all at fresh_room) result }
{
    lend(all, |stations, out| list::startup(stations, at, out))
}

// Shuts down the station of a number; refuses as `list::shutdown` does.
pub fn shutdown_in(all: [Station; 16], at: usize) -> Moved
    ensures { Moves (shut_at all at fresh_room) result }
{
    lend(all, |stations, out| list::shutdown(stations, at, out))
}

// Lets so many ticks pass at the station of a number; refuses as `list::clock` does.
pub fn clock_in(all: [Station; 16], at: usize, ticks: u32) -> Moved
    ensures { Moves (clocked_at all at ticks fresh_room) result }
{
    lend(all, |stations, out| list::clock(stations, at, ticks, out))
}

// Hands the latest advertisement of one station to another; refuses as `list::deliver` does.
pub fn deliver_in(all: [Station; 16], from: usize, to: usize) -> Moved
    ensures { Moves (delivered_at all from to fresh_room) result }
{
    lend(all, |stations, out| list::deliver(stations, from, to, out))
}

// Lets so many ticks pass at the first stations, as many as are used; the stations are copied once for all of them.
pub fn pass_all_in(all: [Station; 16], used: usize, ticks: u32) -> [Station; 16]
    ensures { result ≡ all_passed ticks used all }
{
    let mut stations = all;
    list::pass_first(&mut stations, used, ticks);
    stations
}
