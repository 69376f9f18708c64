// The interface's own words: its primary address, and how often each of refusals 1 to 9 was given.
ghost use Rattle.std.specs.Prelude.{◌≡◌, ◌≤◌};
ghost use Rattle.wire.specs.Refusal.{refusal_number};
ghost use Rattle.places.specs.Place.{primary_of, refusal_count, count_refusal};

use wire::refusal::Refusal;

// The primary address.
#[tactic(auto, unfolding(crate::specs::Place::primary_of))]
pub fn primary(words: &[u32; 4096]) -> u32
    ensures { result ≡ primary_of words.now }
{
    words[0]
}

// How often a refusal of 1 to 9 was given.
// Kept: a number, as `table::calls::interface_count` is asked by one: a type for it would be no plainer.
#[tactic(auto, unfolding(crate::specs::Place::refusal_count))]
pub fn refusal_count(words: &[u32; 4096], number: usize) -> u32
    requires { number ≤ 9 }
    ensures { result ≡ refusal_count words.now number }
{
    words[number]
}

// The table with a refusal of 1 to 9 counted.
// Kept: its bound by a clause: an enum of the nine alone would be a second list of refusals, and no plainer.
#[tactic(auto, unfolding(crate::specs::Place::count_refusal))]
pub fn count_refusal(words: &mut [u32; 4096], refusal: Refusal)
    requires { refusal_number refusal ≤ 9 }
    ensures { words.new ≡ count_refusal words.old (refusal_number refusal) }
{
    let number = refusal.number() as usize;
    words[number] = words[number].wrapping_add(1);
}
