// The stations of a segment in a lent list: each call fetches a station, takes its step by value and stores it.
ghost use Rattle.std.specs.Prelude.{◌≡◌, ◌<◌, ℕ, List, IfOk, map};
ghost use denote.Ref.{MutBor};
ghost use Rattle.wire.specs.Refusal.{number_answered, room_answered};
ghost use Rattle.station.specs.declared.station.Station.{Station};
ghost use Rattle.station.specs.declared.station.Stepped.{Stepped};
ghost use Rattle.station.specs.Station.{Result as StepResult, Leaves};
ghost use Rattle.steps.specs.Steps.{delivered_to};
ghost use Rattle.passing.specs.Passing.{passed};
ghost use Rattle.stations.specs.List.{LeavesList, stepped_at, started_at, shut_at, clocked_at, all_passed};
ghost use Rattle.stations.specs.List.{delivery_refusal, delivered_at};

use events::answer::Done;
use station::station::{Station, Stepped};
use wire::refusal::Refusal;

// Takes a step on the station of a number; refuses by 26 and by what the step refuses.
fn step_at<F: FnOnce(Station, &mut [u8]) -> Stepped>(
    stations: &mut [Station],
    at: usize,
    out: &mut [u8],
    step: F,
) -> Result<Done, Refusal>
    requires { F.IsAlwaysCallable step }
    ensures { (by : Station → List ℕ → StepResult)
        → ((s : Station) (lent left : MutBor (List ℕ)) (r : Stepped)
        → F.post step s lent r left → Leaves (by s lent.now) r left.now)
        → LeavesList (stepped_at by stations.old at out.old) result stations.new out.new }
{
    if at >= stations.len() {
        return Err(Refusal::UnusedStation);
    }
    let stepped = step(stations[at], out);
    stations[at] = stepped.station;
    stepped.answer
}

// Starts up the station of a number; refuses by 26 and by what starting it up refuses.
pub fn startup(stations: &mut [Station], at: usize, out: &mut [u8]) -> Result<Done, Refusal>
    ensures { LeavesList (started_at stations.old at out.old) result stations.new
        out.new }
{
    step_at(stations, at, out, |s, out| steps::startup(s, out))
}

// Shuts down the station of a number; refuses by 26 and by what shutting it down refuses.
pub fn shutdown(stations: &mut [Station], at: usize, out: &mut [u8]) -> Result<Done, Refusal>
    ensures { LeavesList (shut_at stations.old at out.old) result stations.new
        out.new }
{
    step_at(stations, at, out, |s, out| steps::shutdown(s, out))
}

// Lets so many ticks pass at the station of a number; refuses by 26 and by what the clock refuses.
pub fn clock(
    stations: &mut [Station],
    at: usize,
    ticks: u32,
    out: &mut [u8],
) -> Result<Done, Refusal>
    ensures { LeavesList (clocked_at stations.old at ticks out.old) result stations.new
        out.new }
{
    step_at(stations, at, out, |s, out| steps::clock(s, ticks, out))
}

// Lets so many ticks pass at all of these stations.
fn pass_all(stations: &mut [Station], ticks: u32)
    ensures { stations.new ≡ map (λ s. passed s ticks) stations.old }
{
    for station in stations.iter_mut() {
        *station = passing::pass(*station, ticks);
    }
}

// Lets so many ticks pass at the first stations, as many as are used; each fires as often as due.
pub fn pass_first(stations: &mut [Station], used: usize, ticks: u32)
    ensures { stations.new ≡ all_passed ticks used stations.old }
{
    let end = used.min(stations.len());
    pass_all(&mut stations[..end], ticks)
}

// The first of 26 and 28 that a delivery among so many stations is refused by.
#[tactic(auto, unfolding(crate::specs::List::delivery_refusal))]
fn delivery_refusal(from: usize, to: usize, count: usize) -> Result<(), Refusal>
    ensures number { number_answered result ≡ delivery_refusal from to count }
    ensures room { room_answered result ≡ 0 }
    ensures there { IfOk result (λ _. (from < count) × (to < count)) }
{
    if from >= count || to >= count {
        return Err(Refusal::UnusedStation);
    }
    if from == to {
        return Err(Refusal::NothingToDeliver);
    }
    Ok(())
}

// Hands what a station sent to the station of a number; refuses by 26 and by what the delivery refuses.
fn deliver_from(
    sender: Station,
    stations: &mut [Station],
    to: usize,
    out: &mut [u8],
) -> Result<Done, Refusal>
    ensures { LeavesList (stepped_at (delivered_to sender) stations.old to out.old) result
        stations.new out.new }
{
    step_at(
        stations,
        to,
        out,
        |receiver, out| steps::deliver(sender, receiver, out),
    )
}

// Hands the latest advertisement of one station to another; refuses by 26, 28 and by what the delivery refuses.
pub fn deliver(
    stations: &mut [Station],
    from: usize,
    to: usize,
    out: &mut [u8],
) -> Result<Done, Refusal>
    ensures { LeavesList (delivered_at stations.old from to out.old) result stations.new
        out.new }
{
    delivery_refusal(from, to, stations.len())?;
    let sender = stations[from];
    deliver_from(sender, stations, to, out)
}
