// The record of one virtual router.
ghost use Rattle.std.specs.Prelude.{◌≡◌};
ghost use Rattle.states.specs.Letter.{letter_of};

use crate::step::Writes;

#[derive(Clone, Copy, Debug, PartialEq, Eq)]
pub enum State {
    Initialize,
    Backup,
    Master,
}

impl State {
    // The letter by which it is printed.
    pub fn letter(self) -> u8
        ensures { result ≡ letter_of self }
    {
        match self {
            State::Initialize => b'I',
            State::Backup => b'B',
            State::Master => b'M',
        }
    }
}

// The counts of a router, each a 32-bit counter that goes from its greatest value to 0.
#[derive(Clone, Copy)]
pub struct Counts {
    // packets accepted, in any state
    pub accepted: u32,
    // times it became Master
    pub became: u32,
    // packets refused by 10, 11, 12 and 13
    pub owner: u32,
    pub authentication: u32,
    pub list: u32,
    pub interval: u32,
}

#[derive(Clone, Copy)]
pub struct Router {
    pub vrid: u8,
    // 255 is the address owner
    pub priority: u8,
    // in seconds
    pub interval: u8,
    pub preempt: bool,
    pub state: State,
    // ticks of 1/256 second that remain; 0 in Initialize
    pub timer: u32,
    // how many virtual addresses it has
    pub count: u8,
    pub counts: Counts,
}

// What an event changes of a router: its next state and timer, and what it has it write.
#[derive(Clone, Copy)]
pub struct Turn {
    pub state: State,
    pub timer: u32,
    pub writes: Writes,
}
