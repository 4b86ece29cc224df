// Linear combinations of rows, added to sums of 64 bits.
#![tactic(auto)]

ghost use Rattle.std.specs.Prelude.{◌≡◌, ◌≤◌, length};
ghost use Rattle.sums_rows.specs.Internal.{plus, added};

use sums::next_rows;
use words::wide_product;

// Adds weight times a row to the sums; the row may be longer than they are, or shorter.
pub fn add_row(sums: &mut [u64], weight: u32, row: &[u32])
    ensures { sums.new ≡ plus sums.old weight row.now }
{
    for j in 0..sums.len().min(row.len()) {
        sums[j] = sums[j].wrapping_add(wide_product(weight, row[j]));
    }
}

// Adds two weights times their rows, so that each sum is read and written once for both; the rows are as long as the sums, or
// longer.
fn add_two_rows(sums: &mut [u64], weight: u32, row: &[u32], second: u32, next: &[u32])
    requires { (length sums.old ≤ length row.now) × (length sums.old ≤ length next.now) }
    ensures { sums.new ≡ plus (plus sums.old weight row.now) second next.now }
{
    for (j, sum) in sums.iter_mut().enumerate() {
        let once = sum.wrapping_add(wide_product(weight, row[j]));
        *sum = once.wrapping_add(wide_product(second, next[j]));
    }
}

// Adds two weights times their rows, in one pass where both rows are as long as the sums.
pub fn add_pair(sums: &mut [u64], weight: u32, row: &[u32], second: u32, next: &[u32])
    ensures { sums.new ≡ plus (plus sums.old weight row.now) second next.now }
{
    if (row.len() < sums.len()) | (next.len() < sums.len()) {
        add_row(sums, weight, row);
        add_row(sums, second, next);
    } else {
        add_two_rows(sums, weight, row, second, next);
    }
}

// Adds to the sums each weight times its row, two at a time. The rows lie in the source, each a stride after the one before.
pub fn add_rows(sums: &mut [u64], weights: &[u32], source: &[u32], stride: usize)
    ensures { sums.new ≡ added sums.old weights.now source.now stride }
{
    let mut rest = source;
    let mut left = weights;
    // Stays: no index is counted; a `for` over the pairs was slower than the bar.
    while let [weight, second, more @ ..] = left {
        let next = next_rows(rest, stride);
        add_pair(sums, *weight, rest, *second, next);
        rest = next_rows(next, stride);
        left = more;
    }
    if let [weight] = left {
        add_row(sums, *weight, rest);
    }
}
