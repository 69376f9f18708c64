// How a call that is done ends.
// Kept: written out where nothing is done: a default was no shorter, and took more proof.
#[derive(Clone, Copy)]
pub struct Done {
    // so many bytes stand at the start of the room
    pub written: usize,
    // and so many ticks are left over
    pub leftover: u32,
}
