// What refuses a record, by its kind.
#![tactic(auto)]

ghost use Rattle.std.specs.Prelude.{◌≡◌, [], ◌∷◌, Some, IfOk};
ghost use Rattle.wire.specs.Check.{first_refusal};
ghost use Rattle.wire.specs.Refusal.{number_answered};
ghost use Rattle.script.specs.Kinds.{kind_of};
ghost use Rattle.script.specs.Checks.{segment_checks, station_checks, number_checks, deliver_checks, kind_checks};
ghost use Rattle.script.specs.Record.{refusal_of};
ghost use Rattle.script.specs.Progress.{segment_in};

use script::kinds::Kind;
use script::progress::Progress;
use script::record::{Record, record_of};
use script::segment::sent_by;
use station::station::Station;
use wire::refusal::Refusal;

// The first of 14 and 16 that refuses a segment record.
fn segment_refusal(vrid: u8, interval: u8) -> Result<(), Refusal>
    ensures { number_answered result ≡ first_refusal (segment_checks (vrid ∷ (interval ∷ []))) }
{
    if vrid == 0 {
        return Err(Refusal::VridZero);
    }
    if interval == 0 {
        return Err(Refusal::IntervalZero);
    }
    Ok(())
}

// The first of 27, 15 and 29 that refuses a station record.
fn station_refusal(used: usize, priority: u8, preempt: u8) -> Result<(), Refusal>
    ensures { number_answered result ≡ first_refusal (station_checks used (priority ∷ (preempt ∷ []))) }
{
    if used >= 16 {
        return Err(Refusal::SeventeenthStation);
    }
    if priority == 0 {
        return Err(Refusal::PriorityZero);
    }
    if preempt > 1 {
        return Err(Refusal::PreemptAboveOne);
    }
    Ok(())
}

// 26 where a startup or shutdown record names no station.
fn number_refusal(used: usize, at: usize) -> Result<(), Refusal>
    ensures { number_answered result ≡ first_refusal (number_checks used (at ∷ [])) }
{
    if at >= used {
        return Err(Refusal::UnusedStation);
    }
    Ok(())
}

// The first of 26 and 28 that refuses a deliver record.
// Kept: apart from `stations::list`, which does not ask whether it sent: `deliver_checks` and `delivery_checks` differ.
fn deliver_refusal(
    stations: &[Station; 16],
    used: usize,
    from: usize,
    to: usize,
) -> Result<(), Refusal>
    ensures { number_answered result ≡ first_refusal (deliver_checks used stations.now (from ∷ (to ∷ []))) }
{
    if from >= used {
        return Err(Refusal::UnusedStation);
    }
    if to >= used {
        return Err(Refusal::UnusedStation);
    }
    if from == to {
        return Err(Refusal::NothingToDeliver);
    }
    if sent_by(stations, from) == 0 {
        return Err(Refusal::NothingToDeliver);
    }
    Ok(())
}

// The first refusal of a kind's own.
fn kind_refusal(progress: &Progress, taken: Record) -> Result<(), Refusal>
    ensures { number_answered result ≡ first_refusal (kind_checks (Some taken.entry.kind)
        progress.now.reading.used progress.now.stations taken.entry.body.now) }
{
    let used = progress.reading.used;
    let body = taken.body;
    match taken.kind {
        Kind::NewSegment => segment_refusal(body[0], body[1]),
        Kind::NewStation => station_refusal(used, body[0], body[1]),
        Kind::Startup | Kind::Shutdown => number_refusal(used, usize::from(body[0])),
        Kind::Clock => Ok(()),
        Kind::Deliver => {
            deliver_refusal(
                &progress.stations,
                used,
                usize::from(body[0]),
                usize::from(body[1]),
            )
        }
    }
}

// The record of this kind whose body begins these bytes, or the first refusal of it.
#[tactic(auto, using(crate::proofs::Refusing::record_refused, crate::proofs::Refusing::record_goes))]
pub fn taken_record<'a>(
    progress: &Progress,
    byte: u8,
    body: &'a [u8],
) -> Result<Record<'a>, Refusal>
    ensures refused { number_answered result ≡ refusal_of (segment_in progress.now) (kind_of byte) body.now }
    ensures taken { IfOk result (λ r. (Some r.kind ≡ kind_of byte) × (r.body.now ≡ body.now)) }
{
    let taken = record_of(progress.reading.begun, byte, body)?;
    kind_refusal(progress, taken)?;
    Ok(taken)
}
