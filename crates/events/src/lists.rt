// Address lists in lent bytes: 64 for each place.
ghost use Rattle.std.specs.Prelude.{◌≡◌, ◌*◌, ◌≤◌, length};
ghost use Rattle.events.specs.Lists.{list_at, lists_match, set_list};

use places::place::Place;
use rooms::put;
use writing::addresses::Addresses;

// The addresses of a place that has so many.
// Kept: the count's bound by a clause: a router of any count has a meaning, as `list_of` of stations says.
#[tactic(auto, unfolding(crate::specs::Lists::list_at))]
pub fn list_at(lists: &[u8; 16320], place: Place, count: u8) -> Addresses<'_>
    requires { count ≤ 16 }
    ensures bytes { result.bytes.now ≡ list_at lists.now place count }
    ensures len { length result.bytes.now ≡ 4 * count }
{
    let start = 64 * place.index();
    Addresses {
        bytes: &lists[start..start + 4 * usize::from(count)],
    }
}

// Whether two address lists have the same count, the same addresses and the same order.
#[tactic(auto, using(crate::proofs::Matching::compared))]
pub fn lists_match(ours: &[u8], theirs: &[u8]) -> bool
    ensures { result ≡ lists_match ours.now theirs.now }
{
    ours == theirs
}

// Puts the address bytes of a place into the lists.
#[tactic(auto, unfolding(crate::specs::Lists::set_list))]
pub fn put_list(lists: &mut [u8; 16320], place: Place, addresses: Addresses)
    ensures { lists.new ≡ set_list lists.old place addresses.entry.bytes.now }
{
    put(lists, 64 * place.index(), addresses.bytes)
}
