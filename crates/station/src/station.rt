// What a station is, and what a step on it comes to.
ghost use Rattle.std.specs.Prelude.{◌≡◌, ◌≤◌, length};
ghost use Rattle.station.specs.Station.{list_of, with_frame};

use events::answer::Done;
use states::record::Router;
use wire::refusal::Refusal;
use writing::addresses::Addresses;

#[derive(Clone, Copy)]
pub struct Station {
    pub primary: u32,
    // Kept: a station is a table of one place, so there is no router where its number is 0: in_tables' theorems.
    pub router: Router,
    // how often each of refusals 1 to 9 was given
    pub refusals: [u32; 9],
    // the virtual addresses, four bytes each
    // Kept: memory is fixed, and the router's count says how many they are.
    pub addresses: [u8; 64],
    // the latest advertisement frame
    // Kept: memory is fixed, and any value is a station: promises speak of the first bytes, as many as were sent.
    pub frame: [u8; 114],
    // how long that is, 0 where nothing was sent yet
    pub sent: usize,
}

impl Station {
    // Its virtual addresses.
    #[tactic(auto, unfolding(crate::specs::Station::list_of))]
    pub fn list(&self) -> Addresses<'_>
        ensures { result.bytes.now ≡ list_of self.now }
    {
        Addresses {
            bytes: &self.addresses[..4 * usize::from(self.router.count % 17)],
        }
    }

    // The station with these bytes as its latest advertisement frame.
    pub(crate) fn with_frame(self, bytes: &[u8]) -> Station
        requires { length bytes.now ≤ 114 }
        ensures { result ≡ with_frame self bytes.now }
    {
        let mut frame = self.frame;
        frame[..bytes.len()].copy_from_slice(bytes);
        Station {
            frame,
            sent: bytes.len(),
            ..self
        }
    }
}

#[derive(Clone, Copy)]
pub struct Stepped {
    pub station: Station,
    pub answer: Result<Done, Refusal>,
}
