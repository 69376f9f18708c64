// An empty table, configuring and removing a virtual router.
#![tactic(auto)]

ghost use Rattle.std.specs.Prelude.{◌≡◌, IfOk};
ghost use Rattle.wire.specs.Refusal.{number_answered};
ghost use Rattle.places.specs.Place.{set_record, place_of};
ghost use Rattle.events.specs.Lists.{set_list};
ghost use Rattle.configuring.specs.Configuring.{empty_of, is_found, new_router, settings_refusal, configure_refusal, Configured, Removed};

use events::acting::seek;
use events::lists::put_list;
use places::place::{Place, find, load, store};
use states::record::{Counts, Router, State};
use wire::refusal::Refusal;
use writing::addresses::Addresses;

// Every word 0 but the primary address.
pub fn clear(words: &mut [u32; 4096], primary: u32)
    ensures { words.new ≡ empty_of primary }
{
    words.fill(0);
    words[0] = primary;
}

// Whether some place has this first word: a virtual router's number, or 0 for a free place.
fn is_taken(words: &[u32; 4096], vrid: u8) -> bool
    ensures { result ≡ is_found (place_of words.now vrid) }
{
    find(words, vrid).is_some()
}

// What a virtual router is configured with, beside its addresses.
#[derive(Clone, Copy)]
pub struct Settings {
    pub vrid: u8,
    pub priority: u8,
    // in seconds
    pub interval: u8,
    pub preempt: bool,
}

// The addresses, or the first of refusals 14 to 17: those that no table decides.
#[tactic(auto, unfolding(crate::specs::Configuring::settings_refusal))]
pub fn settings_refusal(settings: Settings, addresses: &[u8]) -> Result<Addresses<'_>, Refusal>
    ensures refused { number_answered result ≡ settings_refusal settings.vrid settings.priority
        settings.interval addresses.now }
    ensures taken { IfOk result (λ list. list.bytes.now ≡ addresses.now) }
{
    if settings.vrid == 0 {
        return Err(Refusal::VridZero);
    }
    if settings.priority == 0 {
        return Err(Refusal::PriorityZero);
    }
    if settings.interval == 0 {
        return Err(Refusal::IntervalZero);
    }
    Addresses::try_from(addresses)
}

// The addresses, or the first of refusals 14 to 19.
// Kept: the free place is looked for again by who fills it: a check that answered both would be no plainer.
fn configure_refusal<'a>(
    words: &[u32; 4096],
    settings: Settings,
    addresses: &'a [u8],
) -> Result<Addresses<'a>, Refusal>
    ensures refused { number_answered result ≡ configure_refusal words.now settings.vrid settings.priority
        settings.interval addresses.now }
    ensures taken { IfOk result (λ list. list.bytes.now ≡ addresses.now) }
{
    let list = settings_refusal(settings, addresses)?;
    if is_taken(words, settings.vrid) {
        return Err(Refusal::VridTaken);
    }
    if !is_taken(words, 0) {
        return Err(Refusal::NoFreePlace);
    }
    Ok(list)
}

// A router that was configured just now.
// Kept: plain parameters, since a place that was freed has no `Settings`: a struct of zeros would be no plainer.
pub fn new_router(vrid: u8, priority: u8, interval: u8, preempt: bool, count: u8) -> Router
    ensures { result ≡ new_router vrid priority interval preempt count }
{
    Router {
        vrid,
        priority,
        interval,
        preempt,
        state: State::Initialize,
        timer: 0,
        count,
        counts: Counts {
            accepted: 0,
            became: 0,
            owner: 0,
            authentication: 0,
            list: 0,
            interval: 0,
        },
    }
}

// Puts a new router and its addresses at a place.
fn fill(
    words: &mut [u32; 4096],
    lists: &mut [u8; 16320],
    place: Place,
    fresh: Router,
    list: Addresses,
)
    ensures words { words.new ≡ set_record words.old place fresh }
    ensures lists { lists.new ≡ set_list lists.old place list.entry.bytes.now }
{
    put_list(lists, place, list);
    store(words, place, fresh)
}

// Configures a virtual router at the lowest free place, or refuses by 14 to 19.
pub fn set_up(
    words: &mut [u32; 4096],
    lists: &mut [u8; 16320],
    settings: Settings,
    addresses: &[u8],
) -> Result<(), Refusal>
    ensures { Configured words.old lists.old settings.vrid settings.priority settings.interval settings.preempt
        addresses.now (number_answered result) words.new lists.new }
{
    let list = configure_refusal(words, settings, addresses)?;
    let place = find(words, 0).ok_or(Refusal::NoFreePlace)?;
    let Settings {
        vrid,
        priority,
        interval,
        preempt,
    } = settings;
    let fresh = new_router(vrid, priority, interval, preempt, list.count());
    fill(words, lists, place, fresh, list);
    Ok(())
}

// Frees the place of a virtual router in Initialize, or refuses by 20 or 21.
pub fn free(words: &mut [u32; 4096], vrid: u8) -> Result<(), Refusal>
    ensures { Removed words.old vrid (number_answered result) words.new }
{
    let place = seek(words, vrid).ok_or(Refusal::NoRouter)?;
    if load(words, place).state != State::Initialize {
        return Err(Refusal::NotInInitialize);
    }
    store(words, place, new_router(0, 0, 0, false, 0));
    Ok(())
}
