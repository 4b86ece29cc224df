// Linear combinations of rows modulo each prime, added to sums of 64 bits: the one place that picks how rows are added.
#![tactic(auto)]

ghost use Rattle.std.specs.Prelude.{◌≡◌};
ghost use Rattle.field.specs.Modulus.{prime};
ghost use Rattle.sums_modular.specs.Internal.{large, plus_one, plus_two, added};

use field::Modulus;

// From this prime on, 4096 products of elements do not fit 64 bits.
const LARGE: u32 = 0x400_0000;

// Products of elements have to be folded.
fn is_large(modulus: Modulus) -> bool
    ensures { result ≡ large (prime modulus) }
{
    LARGE <= field::prime_of(modulus)
}

// Adds weight times a row to the sums; the row may be longer than they are, or shorter.
pub fn add_row(modulus: Modulus, sums: &mut [u64], weight: u32, row: &[u32])
    ensures { sums.new ≡ plus_one (prime modulus) sums.old weight row.now }
{
    if is_large(modulus) {
        sums_folded::add_pair(sums, weight, row, 0, row);
    } else {
        sums_rows::add_row(sums, weight, row);
    }
}

// Adds two weights times their rows.
pub fn add_pair(
    modulus: Modulus,
    sums: &mut [u64],
    weight: u32,
    row: &[u32],
    second: u32,
    next: &[u32],
)
    ensures { sums.new
        ≡ plus_two (prime modulus) sums.old weight row.now second next.now }
{
    if is_large(modulus) {
        sums_folded::add_pair(sums, weight, row, second, next);
    } else {
        sums_rows::add_pair(sums, weight, row, second, next);
    }
}

// Adds to the sums each weight times its row. The rows lie in the source, each a stride after the one before.
pub fn add_rows(modulus: Modulus, sums: &mut [u64], weights: &[u32], source: &[u32], stride: usize)
    ensures { sums.new
        ≡ added (prime modulus) sums.old weights.now source.now stride }
{
    if is_large(modulus) {
        sums_folded::add_rows(sums, weights, source, stride);
    } else {
        sums_rows::add_rows(sums, weights, source, stride);
    }
}
