// The VRRP message in a packet's payload: refusals 5 to 8.
ghost use Rattle.std.specs.Prelude.{◌≡◌};
ghost use Rattle.wire.specs.Check.{first_refusal};
ghost use Rattle.wire.specs.Refusal.{number_answered};
ghost use Rattle.judging.specs.Message.{message_checks};

use sums::sum;
use wire::refusal::Refusal;

// The first of refusals 5 to 8 that holds.
#[tactic(auto, unfolding(crate::specs::Message::version_wrong, crate::specs::Message::too_short, crate::specs::Message::message_sum_wrong))]
pub fn message_refusal(payload: &[u8]) -> Result<(), Refusal>
    ensures { number_answered result ≡ first_refusal (message_checks payload.now) }
{
    let given = payload.len();
    if given == 0 {
        return Err(Refusal::TooShort);
    }
    let first = payload[0];
    if first / 16 != 2 {
        return Err(Refusal::Version);
    }
    if given < 8 {
        return Err(Refusal::TooShort);
    }
    let length = 16 + 4 * usize::from(payload[3]);
    if given < length {
        return Err(Refusal::TooShort);
    }
    if sum(&payload[..length]) != 65535 {
        return Err(Refusal::Checksum);
    }
    if first % 16 != 1 {
        return Err(Refusal::MessageType);
    }
    Ok(())
}
