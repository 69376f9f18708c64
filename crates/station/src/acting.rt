// An event's outcome for a station, and the advertisement that it keeps.
ghost use Rattle.station.specs.Station.{Leaves};
ghost use Rattle.station.specs.Acting.{acted_by};

use crate::station::{Station, Stepped};
use events::answer::Done;
use output::{need, put_output};
use states::step::Outcome;
use wire::refusal::Refusal;

// Writes the frames of an outcome and keeps the advertisement, or tells how much room they need.
// Kept: apart from `events::acting::act`, which changes lent words in place: `EventInTable` says that both leave the same.
pub fn act(s: Station, outcome: Outcome, leftover: u32, out: &mut [u8]) -> Stepped
    ensures { Leaves (acted_by s outcome leftover out.old) result out.new }
{
    let list = s.list();
    let needed = need(outcome.writes, list);
    if out.len() < needed {
        return Stepped {
            station: s,
            answer: Err(Refusal::Room(needed)),
        };
    }
    put_output(outcome.writes, outcome.router, s.primary, list, out);
    let after = Station {
        router: outcome.router,
        ..s
    };
    let answer = Ok(Done {
        written: needed,
        leftover,
    });
    if needed == 0 {
        return Stepped {
            station: after,
            answer,
        };
    }
    let sent = 50 + list.bytes.len();
    Stepped {
        station: after.with_frame(&out[..sent]),
        answer,
    }
}
