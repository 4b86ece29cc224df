// Linear combinations of rows modulo 2^31 - 1, added to sums of 64 bits: two rows at a time, and each pair of products is folded,
// since no more than four products of elements fit 64 bits.
#![tactic(auto)]

ghost use Rattle.std.specs.Prelude.{◌≡◌, ◌*◌};
ghost use Rattle.sums_folded.specs.Internal.{fold as contracts_fold, folded, paired_two, paired_added};

use sums::next_rows;
use words::wide_product;

// A number in the base 2^31, its digits added.
fn fold(n: u64) -> u64
    ensures { result ≡ contracts_fold n }
{
    n % 0x8000_0000 + n / 0x8000_0000
}

// Two products in 64 bits, folded.
fn pair_term(a: u32, x: u32, b: u32, y: u32) -> u64
    ensures { result ≡ folded (a * x) (b * y) }
{
    fold(wide_product(a, x).wrapping_add(wide_product(b, y)))
}

// Adds two weights times their rows.
// Stays: a weight and its row; a struct of the two would be taken apart in each loop.
fn add_two_rows(sums: &mut [u64], weight: u32, row: &[u32], second: u32, next: &[u32])
    ensures { sums.new ≡ paired_two folded sums.old weight row.now second next.now }
{
    for (j, sum) in sums.iter_mut().enumerate() {
        let x = row.get(j).copied().unwrap_or(0);
        let y = next.get(j).copied().unwrap_or(0);
        *sum = sum.wrapping_add(pair_term(weight, x, second, y));
    }
}

// Adds two weights times their rows. Where both rows are as long as the sums, the compiler is told so: it then tests no index,
// and does several elements at once.
pub fn add_pair(sums: &mut [u64], weight: u32, row: &[u32], second: u32, next: &[u32])
    ensures { sums.new ≡ paired_two folded sums.old weight row.now second next.now }
{
    let n = sums.len();
    if (row.len() < n) | (next.len() < n) {
        add_two_rows(sums, weight, row, second, next);
    } else {
        add_two_rows(sums, weight, &row[..n], second, &next[..n]);
    }
}

// Adds to the sums each weight times its row, two at a time; an odd last row goes beside itself, with the weight 0. The rows lie
// in the source, each a stride after the one before.
// Stays: rows lie in the source as the caller has them; a struct of three arguments would be no plainer.
pub fn add_rows(sums: &mut [u64], weights: &[u32], source: &[u32], stride: usize)
    ensures { sums.new ≡ paired_added folded sums.old weights.now source.now stride }
{
    let pairs = weights.len() / 2;
    let mut rest = source;
    for c in 0..pairs {
        let next = next_rows(rest, stride);
        add_pair(sums, weights[c * 2], rest, weights[c * 2 + 1], next);
        rest = next_rows(next, stride);
    }
    if pairs * 2 < weights.len() {
        add_pair(sums, weights[pairs * 2], rest, 0, rest);
    }
}
