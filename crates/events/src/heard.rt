// A packet that passed refusals 1 to 8.
ghost use Rattle.std.specs.Prelude.{◌≡◌, ◌+◌, ◌*◌, ◌≤◌, length};

use judging::Fields;

#[derive(Clone, Copy)]
pub struct Heard<'a> {
    pub packet: &'a [u8],
    // what it says
    pub fields: Fields,
    // its address list lies in it
    ghost listed: { fields.list + 4 * fields.count ≤ length packet.now },
}

impl<'a> Heard<'a> {
    ghost use Rattle.events.specs.Lists.{their_list};

    // The address list that it carries.
    #[tactic(auto, unfolding(crate::specs::Lists::their_list))]
    pub fn list(self) -> &'a [u8]
        ensures { result.now ≡ their_list self.entry.packet.now self.entry.fields }
    {
        let from = self.fields.list;
        &self.packet[from..from + 4 * usize::from(self.fields.count)]
    }
}
