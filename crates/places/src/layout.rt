// How a router's record lies in 16 words.
ghost use Rattle.std.specs.Prelude.{◌≡◌, ◌≤◌, length};
ghost use Rattle.places.specs.Layout.{flag_of, state_of, counts_in, decode_of, encode_of};

use states::record::{Counts, Router, State};
use states::step::state_number;

// The state that a word stands for: 0 is Initialize, 1 Backup, and every other Master.
// Kept: a function, no `From`: only in this layout is a word a state, so that `states` would say more, and no plainer.
#[tactic(auto, unfolding(crate::specs::Layout::state_of))]
pub fn state_of(word: u32) -> State
    ensures { result ≡ state_of word }
{
    match word {
        0 => State::Initialize,
        1 => State::Backup,
        _ => State::Master,
    }
}

fn decode_counts(s: &[u32]) -> Counts
    requires { length s.now ≡ 16 }
    ensures { result ≡ counts_in s.now }
{
    Counts {
        accepted: s[7],
        became: s[8],
        owner: s[9],
        authentication: s[10],
        list: s[11],
        interval: s[12],
    }
}

// The record that 16 words hold: every word decodes to something.
// Kept: a byte by its remainder, as `decode_of` has it: of a number that is no byte a conversion would answer an error.
#[tactic(auto, unfolding(crate::specs::Layout::decode_of))]
pub fn decode(s: &[u32]) -> Router
    requires { length s.now ≡ 16 }
    ensures record { result ≡ decode_of s.now }
    ensures count { result.count ≤ 16 }
{
    Router {
        vrid: (s[0] % 256) as u8,
        priority: (s[1] % 256) as u8,
        interval: (s[2] % 256) as u8,
        preempt: s[3] == 1,
        state: state_of(s[4]),
        timer: s[5],
        // at most 16 addresses
        count: (s[6] % 17) as u8,
        counts: decode_counts(s),
    }
}

// The 16 words of a record.
#[tactic(auto, unfolding(crate::specs::Layout::encode_of))]
pub fn encode(r: Router) -> [u32; 16]
    ensures { result ≡ encode_of r }
{
    let counts = r.counts;
    [
        u32::from(r.vrid),
        u32::from(r.priority),
        u32::from(r.interval),
        u32::from(r.preempt),
        state_number(r.state),
        r.timer,
        u32::from(r.count),
        counts.accepted,
        counts.became,
        counts.owner,
        counts.authentication,
        counts.list,
        counts.interval,
        0,
        0,
        0,
    ]
}
