// The address bytes that a call is given: 1 to 16 addresses of 4 bytes. A router in lent memory may have none.
ghost use Rattle.std.specs.Prelude.{◌≡◌, ◌/◌, ◌%◌, ◌≤◌, length};

use wire::refusal::Refusal;

// Virtual addresses of 4 bytes each.
#[derive(Clone, Copy)]
pub struct Addresses<'a> {
    pub bytes: &'a [u8],
    pub ghost fours: { length bytes.now % 4 ≡ 0 },
    pub ghost most: { length bytes.now ≤ 64 },
}

impl<'a> TryFrom<&'a [u8]> for Addresses<'a> {
    type Error = Refusal;

    ghost use Rattle.writing.specs.Given.{Taken};

    ghost try_from_gives = { λ given result. Taken given.now result };

    // Refuses 17 where the bytes are not a multiple of 4, none, or above 64.
    #[tactic(auto, unfolding(crate::specs::Writing::address_bytes_wrong))]
    fn try_from(bytes: &'a [u8]) -> Result<Self, Refusal> {
        let given = bytes.len();
        if given % 4 != 0 || given == 0 || 64 < given {
            return Err(Refusal::AddressBytes);
        }
        Ok(Addresses { bytes })
    }
}

impl Addresses<'_> {
    // How many they are.
    pub fn count(&self) -> u8
        ensures { result ≡ length self.now.bytes.now / 4 }
    {
        (self.bytes.len() / 4) as u8
    }
}
