// Putting bytes into a room that the caller lends.
#![tactic(auto)]

ghost use Rattle.std.specs.Prelude.{◌≡◌, ◌+◌, ◌≤◌, length};
ghost use Rattle.std.proofs.Math.Seq.{paste};

// Copies `bytes` into the room from `at` on.
// Kept: byte by byte, as `copy_from_slice` is a call of `memmove`, which an archive for C would need from outside.
pub fn put(room: &mut [u8], at: usize, bytes: &[u8])
    requires { at + length bytes.now ≤ length room.old }
    ensures { room.new ≡ paste room.old at bytes.now
        (length bytes.now) }
{
    for k in 0..bytes.len() {
        room[at + k] = bytes[k];
    }
}
