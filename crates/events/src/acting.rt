// An event's outcome at a place.
ghost use Rattle.std.specs.Prelude.{◌≡◌};
ghost use Rattle.places.specs.Place.{record_at, set_event};
ghost use Rattle.events.specs.Result.{Leaves, router_place, acted_of};
ghost use Rattle.events.specs.Turned.{heard_router, turned_at};

use crate::answer::Done;
use crate::lists::list_at;
use output::{need, put_output};
use places::interface::primary;
use places::place::{Place, find, load, store_event};
use router::accept::count_accepted;
use states::record::{Router, Turn};
use states::step::applied;
use wire::refusal::Refusal;

// The place of a virtual router, where it has one; number 0 has none.
pub fn seek(words: &[u32; 4096], vrid: u8) -> Option<Place>
    ensures { result ≡ router_place words.now vrid }
{
    if vrid == 0 {
        return None;
    }
    find(words, vrid)
}

// The router at a place as it hears an event: one accepted packet more where that is a packet.
fn load_heard(words: &[u32; 4096], place: Place, heard: bool) -> Router
    ensures { result ≡ heard_router heard (record_at words.now place) }
{
    let own = load(words, place);
    if heard { count_accepted(own) } else { own }
}

// Stores what an event changes of the router at a place.
pub fn change(words: &mut [u32; 4096], place: Place, heard: bool, turn: Turn)
    ensures { words.new ≡ set_event words.old place
        (turned_at words.old place heard turn).router }
{
    let outcome = applied(load_heard(words, place, heard), turn);
    let after = outcome.router;
    store_event(words, place, after)
}

// Stores what an event changes and writes its frames, or refuses by 22 and tells how much room they need.
// Kept: `words` and `lists` go side by side, as C lends them (`table_c`): one is changed and the other only read.
// Kept: `heard` has the router loaded where it is needed; handed over by value, it made a takeover dearer than in plain C.
pub fn act(
    words: &mut [u32; 4096],
    lists: &[u8; 16320],
    place: Place,
    heard: bool,
    turn: Turn,
    leftover: u32,
    out: &mut [u8],
) -> Result<Done, Refusal>
    ensures { Leaves
        (acted_of words.old lists.now place
        (turned_at words.old place heard turn) leftover out.old)
        result words.new out.new }
{
    let own = load(words, place);
    let writes = turn.writes;
    let list = list_at(lists, place, own.count);
    let needed = need(writes, list);
    if out.len() < needed {
        return Err(Refusal::Room(needed));
    }
    put_output(writes, own, primary(words), list, out);
    change(words, place, heard, turn);
    Ok(Done {
        written: needed,
        leftover,
    })
}
