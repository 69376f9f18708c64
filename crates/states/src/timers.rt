// The times of a router, in ticks of 1/256 second: the only functions that know the formulas.
ghost use Rattle.std.specs.Prelude.{◌≡◌};
ghost use Rattle.states.specs.Timers.{skew_of, master_down_of, advertisement_interval_of};

// How long a Backup waits after a Master has left.
#[tactic(auto, unfolding(crate::specs::Timers::skew_of))]
pub fn skew(priority: u8) -> u32
    ensures { result ≡ skew_of priority }
{
    256 - u32::from(priority)
}

// How long a Backup waits for a Master that is silent.
#[tactic(auto, unfolding(crate::specs::Timers::skew_of, crate::specs::Timers::master_down_of))]
pub fn master_down(priority: u8, interval: u8) -> u32
    ensures { result ≡ master_down_of priority interval }
{
    768 * u32::from(interval) + skew(priority)
}

// How long a Master waits between advertisements.
#[tactic(auto, unfolding(crate::specs::Timers::advertisement_interval_of))]
pub fn advertisement_interval(interval: u8) -> u32
    ensures { result ≡ advertisement_interval_of interval }
{
    256 * u32::from(interval)
}
