// What a router says to a packet that passed refusals 1 to 9: refusals 10 to 13, and the counts.
ghost use Rattle.std.specs.Prelude.{◌≡◌};
ghost use Rattle.wire.specs.Refusal.{refusal_number, number_answered};
ghost use Rattle.router.specs.Accept.{router_refusal, refused_of, accepted_of};

use judging::Fields;
use states::record::{Counts, Router};
use wire::refusal::Refusal;

// The first of refusals 10 to 13. An address list counts against a packet unless it is that of an address owner.
#[tactic(auto, unfolding(crate::specs::Accept::router_refusal))]
pub fn router_refusal(r: Router, fields: Fields, same: bool) -> Result<(), Refusal>
    ensures { number_answered result ≡ router_refusal r fields same }
{
    if r.priority == 255 {
        return Err(Refusal::AddressOwner);
    }
    if fields.authentication != 0 {
        return Err(Refusal::Authentication);
    }
    if fields.priority != 255 && !same {
        return Err(Refusal::AddressList);
    }
    if fields.interval != r.interval {
        return Err(Refusal::OtherInterval);
    }
    Ok(())
}

// The router with one refusal of 10 to 13 more.
pub fn count_refusal(r: Router, refusal: Refusal) -> Router
    ensures { result ≡ refused_of r (refusal_number refusal) }
{
    let mut counts = r.counts;
    match refusal {
        Refusal::AddressOwner => counts.owner = counts.owner.wrapping_add(1),
        Refusal::Authentication => counts.authentication = counts.authentication.wrapping_add(1),
        Refusal::AddressList => counts.list = counts.list.wrapping_add(1),
        Refusal::OtherInterval => counts.interval = counts.interval.wrapping_add(1),
        _ => {}
    }
    Router { counts, ..r }
}

// The router with one accepted packet more.
pub fn count_accepted(r: Router) -> Router
    ensures { result ≡ accepted_of r }
{
    let counts = Counts {
        accepted: r.counts.accepted.wrapping_add(1),
        ..r.counts
    };
    Router { counts, ..r }
}
