// Rows of sums of 64 bits: set to 0 before terms are added, and reduced once, at the end; and the rows that are added to them.
#![tactic(auto)]

ghost use Rattle.std.specs.Prelude.{◌≡◌, drop};
ghost use Rattle.field.specs.Modulus.{prime};
ghost use Rattle.sums.specs.Internal.{zeros, reduced};

use field::Modulus;

// Sets every sum to 0.
pub fn clear(sums: &mut [u64])
    ensures { sums.new ≡ zeros sums.old }
{
    sums.fill(0);
}

// The sums modulo the prime, as many as have room in the output.
pub fn reduce_row(modulus: Modulus, sums: &[u64], out: &mut [u32])
    ensures { out.new ≡ reduced (prime modulus) sums.now out.old }
{
    for j in 0..sums.len().min(out.len()) {
        out[j] = field::reduce(modulus, sums[j]);
    }
}

// Of rows that each begin a stride after the one before, those after the first; past the end there is none.
pub fn next_rows(rows: &[u32], stride: usize) -> &[u32]
    ensures { result.now ≡ drop stride rows.now }
{
    &rows[stride.min(rows.len())..]
}
