// The one's complement sum of bytes where they stand: nothing is copied to be summed.
#![tactic(auto)]

ghost use Rattle.std.specs.Prelude.{◌≡◌, ◌*◌, ◌/◌, ◌%◌, ◌^◌, ◌<◌, ◌≤◌, length, sum_by};
ghost use Rattle.std.specs.Int.{from_be_bytes, w32};
ghost use Rattle.sums.specs.Sum.{sum_of, Bytes};
ghost use Rattle.sums.specs.Total.{total, folded};

// The sum of numbers of four bytes.
fn numbers_sum(numbers: &[[u8; 4]]) -> u64
    requires { sum_by (from_be_bytes w32) numbers.now < 2 ^ 64 }
    ensures { result ≡ sum_by (from_be_bytes w32) numbers.now }
{
    numbers
        .iter()
        .map(|number| u64::from(u32::from_be_bytes(*number)))
        .sum()
}

// The plain sum of the 32-bit numbers that the bytes make four by four, with all carries.
#[tactic(auto, using(crate::proofs::Numbers::total_numbers, crate::proofs::Numbers::total_bound))]
pub fn plain_total(bytes: &[u8]) -> u64
    requires { (length bytes.now % 4 ≡ 0) × (length bytes.now ≤ 65536) }
    ensures sum { result ≡ total bytes.now }
    ensures bound { result ≤ 4294967295 * (length bytes.now / 4) }
    // as its type says, for callers whose laws ask it
    ensures bytes { Bytes bytes.now }
{
    let (numbers, _) = bytes.as_chunks::<4>();
    numbers_sum(numbers)
}

// A plain sum with its carries put back in at the bottom: a one's complement sum, 65535 and never 0 where the plain sum is not 0.
#[tactic(auto, using(crate::proofs::Folding::folded_zero, crate::proofs::Folding::folded_positive))]
pub fn fold(plain: u64) -> u16
    ensures { result ≡ folded plain }
{
    if plain == 0 {
        return 0;
    }
    ((plain - 1) % 65535 + 1) as u16
}

// The one's complement sum of the bytes.
#[tactic(auto, using(crate::proofs::Laws::sum_folded))]
pub fn sum(bytes: &[u8]) -> u16
    requires { (length bytes.now % 4 ≡ 0) × (length bytes.now ≤ 65536) }
    ensures { result ≡ sum_of bytes.now }
{
    fold(plain_total(bytes))
}
