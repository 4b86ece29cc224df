// Two rows of small numbers as one, so that the sums of their multiples are made at once.
#![tactic(auto)]

ghost use Rattle.std.specs.Prelude.{◌≡◌};
ghost use Rattle.field.specs.Modulus.{prime};
ghost use Rattle.sums.specs.Internal.{reduced};
ghost use Rattle.sums_packed.specs.Internal.{pair, packed, half, halves};

use field::Modulus;

// The radix of a pair: what its second number is multiplied by. 127 products of numbers below 257 sum to less.
const RADIX: u64 = 0x80_0000;

// Two numbers as one, in 32 bits.
fn pair_of(first: u32, second: u32) -> u32
    ensures { result ≡ pair first second }
{
    ((first as u64 + RADIX * second as u64) % 0x1_0000_0000) as u32
}

// Packs two rows, the halves of a list, into one: as many pairs as have room; the rest of the output stays as it was.
pub fn pack(rows: &[u32], out: &mut [u32])
    ensures { out.new ≡ packed rows.now out.old }
{
    let (first, second) = rows.split_at(rows.len() / 2);
    for k in 0..first.len().min(out.len()) {
        out[k] = pair_of(first[k], second[k]);
    }
}

// The upper number of a pair, or the lower.
fn half_of<const UPPER: bool>(sum: u64) -> u64
    ensures { result ≡ half UPPER sum }
{
    if UPPER { sum / RADIX } else { sum % RADIX }
}

// The upper halves of the sums, or the lower, modulo the prime, as many as have room in the output.
pub fn unpack<const UPPER: bool>(modulus: Modulus, sums: &[u64], out: &mut [u32])
    ensures { out.new ≡ reduced (prime modulus) (halves UPPER sums.now) out.old }
{
    for j in 0..sums.len().min(out.len()) {
        out[j] = field::reduce(modulus, half_of::<UPPER>(sums[j]));
    }
}
