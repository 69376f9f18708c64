// Reading, writing and finding a place.
ghost use Rattle.std.specs.Prelude.{◌≡◌, ◌+◌, ◌≤◌, ◌<◌, ◌==◌, ℕ};
ghost use Rattle.wire.specs.Refusal.{refusal_number};
ghost use Rattle.states.specs.Step.{state_number, with_state};
ghost use Rattle.places.specs.Place.{base_of, record_at, set_record, state_word, set_event, count_at_place, place_of};

use crate::layout::{decode, encode, state_of};
use states::record::{Router, State};
use states::step::state_number;
use std::marker::Model;
use wire::refusal::Refusal;

// One of the 255 places of a table.
#[derive(Clone, Copy)]
pub struct Place {
    index: usize,
}

impl Model for Place {
    ghost Value = { ℕ };

    ghost view = { λ p. p.index };

    ghost inverse = { λ n. record { index = n } };

    ghost invariant = { λ p. p.index < 255 };
}

impl Place {
    pub fn index(self) -> usize
        ensures index { result ≡ self }
        ensures below { result < 255 }
    {
        self.index
    }

    // Where its words begin.
    fn start(self) -> usize
        ensures start { result ≡ base_of self }
        ensures end { result + 16 ≤ 4096 }
    {
        16 + 16 * self.index
    }
}

// The record at a place.
#[tactic(auto, unfolding(crate::specs::Place::record_at))]
pub fn load(words: &[u32; 4096], place: Place) -> Router
    ensures record { result ≡ record_at words.now place }
    ensures count { result.count ≤ 16 }
{
    let start = place.start();
    decode(&words[start..start + 16])
}

// The table with a record at a place.
pub fn store(words: &mut [u32; 4096], place: Place, r: Router)
    ensures { words.new ≡ set_record words.old place r }
{
    let start = place.start();
    words[start..start + 16].copy_from_slice(&encode(r))
}

// The word of a state, where this one stood: it stays where the state stays.
// Kept: states by their numbers: one of them is stored next, so that `==` would be no plainer.
fn state_word(word: u32, state: State) -> u32
    ensures { result ≡ state_word word state }
{
    let stood = state_of(word);
    let number = state_number(state);
    if state_number(stood) == number {
        return word;
    }
    number
}

// The table with what an event changes of the router at a place: its state, its timer, how many packets it accepted and how
// often it became Master.
pub fn store_event(words: &mut [u32; 4096], place: Place, r: Router)
    ensures { words.new ≡ set_event words.old place r }
{
    let start = place.start();
    let state = r.state;
    let counts = r.counts;
    let word = state_word(words[start + 4], state);
    words[start + 4] = word;
    words[start + 5] = r.timer;
    words[start + 7] = counts.accepted;
    words[start + 8] = counts.became;
}

// Whether the router at a place is in Initialize.
#[tactic(auto, using(crate::proofs::Events::initialize_word))]
pub fn in_initialize(words: &[u32; 4096], place: Place) -> bool
    ensures { result ≡ (state_number (record_at words.now place).state == 0) }
{
    words[place.start() + 4] == 0
}

// What remains of the timer of the router at a place.
#[tactic(auto, using(crate::proofs::Events::timer_is))]
pub fn timer(words: &[u32; 4096], place: Place) -> u32
    ensures { result ≡ (record_at words.now place).timer }
{
    words[place.start() + 5]
}

// The table with another timer for the router at a place.
#[tactic(auto, using(crate::proofs::Events::timer_event))]
pub fn store_timer(words: &mut [u32; 4096], place: Place, ticks: u32)
    ensures { words.new ≡ set_event words.old place
        (with_state (record_at words.old place) (record_at words.old place).state ticks) }
{
    words[place.start() + 5] = ticks;
}

// The table with a refusal of 10 to 13 counted for the router at a place.
// Kept: beside `count_refusal`, of which one line is the same: a function of that line would be no plainer.
#[tactic(auto, unfolding(crate::specs::Place::count_at_place))]
pub fn count_at_place(words: &mut [u32; 4096], place: Place, refusal: Refusal)
    requires { (10 ≤ refusal_number refusal) × (refusal_number refusal ≤ 13) }
    ensures { words.new ≡ count_at_place words.old place (refusal_number refusal) }
{
    let number = refusal.number() as usize;
    let at = place.start() + (number - 1);
    words[at] = words[at].wrapping_add(1);
}

// The lowest place whose first word is `vrid`: the place of a virtual router, or for 0 the lowest free one.
// Kept: 0 for a free place, as its first word has it: `place_of` is one search for both.
pub fn find(words: &[u32; 4096], vrid: u8) -> Option<Place>
    ensures { result ≡ place_of words.now vrid }
{
    let sought = u32::from(vrid);
    for index in 0..255 {
        if words[16 + 16 * index] == sought {
            return Some(Place { index });
        }
    }
    None
}
