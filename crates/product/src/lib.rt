// The host's block product: A share times B share, modulo the prime.
#![tactic(auto)]

ghost use Rattle.std.specs.Prelude.{◌≡◌, not, ◌||◌, ◌*◌, ◌≤◌, length};
ghost use Rattle.algebra.specs.Lists.{AllBelow, all_below};
ghost use Rattle.refusal.specs.Chain.{answered, differs};
ghost use Rattle.refusal.specs.Limits.{most_elements};
ghost use Rattle.field.specs.Modulus.{prime};
ghost use Rattle.product.specs.Product.{product_of, product_tests, product_after};
ghost use Rattle.product.specs.Internal.{Multiplicable, AtOnce};

use field::Modulus;
use refusal::{MOST_ELEMENTS, Refusal};
use words::wide_product;

// The sizes of a product: rows by inner times inner by columns.
#[derive(Clone, Copy)]
struct Sizes {
    rows: usize,
    inner: usize,
    columns: usize,
}

// Two shares that no test refuses, and the sizes of their product.
#[derive(Clone, Copy)]
struct Shares<'a> {
    modulus: Modulus,
    sizes: Sizes,
    a: &'a [u32],
    b: &'a [u32],
    ghost fit: { Multiplicable (prime modulus) sizes a.now b.now (sizes.rows * sizes.columns) },
}

// Up to so many columns, only so many sums are made: to make the most takes longer than a small product.
const FEW_COLUMNS: usize = 64;

// The largest prime whose elements are packed.
const MOST_PACKED_PRIME: u32 = 257;

// The most elements of a row that is packed.
const MOST_PACKED: usize = 127;

// A buffer is not of exact length.
fn length_test(rows: u32, inner: u32, columns: u32, a: usize, b: usize, out: usize) -> bool
    ensures { result ≡ (differs a (rows * inner) || differs b (inner * columns) || differs out (rows * columns)) }
{
    (a as u64 != wide_product(rows, inner))
        | (b as u64 != wide_product(inner, columns))
        | (out as u64 != wide_product(rows, columns))
}

// An element of a share is not below the prime.
fn element_test(modulus: Modulus, a: &[u32], b: &[u32]) -> bool
    ensures { result ≡ (not (all_below (prime modulus) a.now) || not (all_below (prime modulus) b.now)) }
{
    !field::all_below(modulus, a) | !field::all_below(modulus, b)
}

// One row of the product: the elements of A's row are the weights of B's rows. There is a sum for each element of the output.
fn product_row(modulus: Modulus, row: &[u32], b: &[u32], sums: &mut [u64], out: &mut [u32])
    requires { AllBelow (prime modulus) row.now
        × AllBelow (prime modulus) b.now
        × length row.now ≤ most_elements
        × length sums.old ≡ length out.old }
    ensures { out.new
        ≡ product_of (prime modulus) 1 (length row.now) (length out.old) row.now b.now }
{
    sums::clear(sums);
    sums_modular::add_rows(modulus, sums, row, b, out.len());
    sums::reduce_row(modulus, sums, out);
}

// How many rows of the product are made at once: two where they have room when packed.
fn at_once(modulus: Modulus, inner: usize) -> usize
    ensures { AtOnce (prime modulus) inner result }
{
    if MOST_PACKED_PRIME < field::prime_of(modulus) || MOST_PACKED < inner {
        1
    } else {
        2
    }
}

// One row of the product, or two at once: then A's rows are packed, and the sums taken apart. That the prime is then small is
// tested again: so the compiler knows it in the loops. It is no part of the loop over the rows: there the compiler would carry a dozen
// offsets from row to row, which took as long as a short row.
#[inline(never)]
fn few_rows(
    modulus: Modulus,
    count: usize,
    inner: usize,
    part: &[u32],
    b: &[u32],
    sums: &mut [u64],
    out: &mut [u32],
)
    requires { AtOnce (prime modulus) inner count
        × AllBelow (prime modulus) part.now
        × AllBelow (prime modulus) b.now
        × inner ≤ most_elements
        × length part.now ≡ count * inner
        × length out.old ≡ count * length sums.old }
    ensures { out.new
        ≡ product_of (prime modulus) count inner (length sums.old) part.now b.now }
{
    let large = MOST_PACKED_PRIME < field::prime_of(modulus);
    if (count < 2) | large {
        product_row(modulus, part, b, sums, out);
        return;
    }
    let columns = sums.len();
    let mut weights = [0u32; MOST_PACKED];
    sums_packed::pack(part, &mut weights[..inner]);
    sums::clear(sums);
    sums_modular::add_rows(modulus, sums, &weights[..inner], b, columns);
    sums_packed::unpack::<false>(modulus, sums, &mut out[..columns]);
    sums_packed::unpack::<true>(modulus, sums, &mut out[columns..]);
}

// The product of two shares, row by row: what `multiply_rows` makes where one row is made at once, in a loop whose bounds the compiler
// knows. There is a sum for each column.
// Stays: the fact is of the lent output, which each call of the four has to fit.
fn single_rows(x: Shares, sums: &mut [u64], out: &mut [u32])
    requires { length sums.old ≡ x.sizes.columns × length out.old ≡ x.sizes.rows * x.sizes.columns }
    ensures { let s = x.entry.sizes in
        out.new ≡ product_of (prime x.entry.modulus) s.rows s.inner s.columns x.entry.a.now x.entry.b.now }
{
    let s = x.sizes;
    for i in 0..s.rows {
        let left = i * s.inner;
        let left_end = left + s.inner;
        let start = i * s.columns;
        let end = start + s.columns;
        product_row(
            x.modulus,
            &x.a[left..left_end],
            x.b,
            sums,
            &mut out[start..end],
        );
    }
}

// The product of two shares, a few rows at a time. There is a sum for each column.
// Stays: as in `single_rows`.
fn multiply_rows(x: Shares, sums: &mut [u64], out: &mut [u32])
    requires { length sums.old ≡ x.sizes.columns × length out.old ≡ x.sizes.rows * x.sizes.columns }
    ensures { let s = x.entry.sizes in
        out.new ≡ product_of (prime x.entry.modulus) s.rows s.inner s.columns x.entry.a.now x.entry.b.now }
{
    let s = x.sizes;
    let step = at_once(x.modulus, s.inner);
    for i in (0..s.rows).step_by(step) {
        let n = step.min(s.rows - i);
        let left = i * s.inner;
        let left_end = left + n * s.inner;
        let start = i * s.columns;
        let end = start + n * s.columns;
        few_rows(
            x.modulus,
            n,
            s.inner,
            &x.a[left..left_end],
            x.b,
            sums,
            &mut out[start..end],
        );
    }
}

// The product of two shares, with so many sums, of which each column needs one.
fn multiply_with<const SUMS: usize>(x: Shares, out: &mut [u32])
    requires { x.sizes.columns ≤ SUMS × SUMS ≤ most_elements × length out.old ≡ x.sizes.rows * x.sizes.columns }
    ensures { let s = x.entry.sizes in
        out.new ≡ product_of (prime x.entry.modulus) s.rows s.inner s.columns x.entry.a.now x.entry.b.now }
{
    let mut sums = [0u64; SUMS];
    if at_once(x.modulus, x.sizes.inner) < 2 {
        single_rows(x, &mut sums[..x.sizes.columns], out);
    } else {
        multiply_rows(x, &mut sums[..x.sizes.columns], out);
    }
}

// The product of two shares, with few sums or the most.
fn multiply(x: Shares, out: &mut [u32])
    requires { length out.old ≡ x.sizes.rows * x.sizes.columns }
    ensures { let s = x.entry.sizes in
        out.new ≡ product_of (prime x.entry.modulus) s.rows s.inner s.columns x.entry.a.now x.entry.b.now }
{
    if x.sizes.columns <= FEW_COLUMNS {
        multiply_with::<FEW_COLUMNS>(x, out);
    } else {
        multiply_with::<MOST_ELEMENTS>(x, out);
    }
}

// The product of two shares: rows by inner times inner by columns. The output then holds it, or the call is refused, and
// the output stays as it was.
pub fn product(
    modulus: u32,
    rows: u32,
    inner: u32,
    columns: u32,
    a: &[u32],
    b: &[u32],
    out: &mut [u32],
) -> Result<(), Refusal>
    ensures number { let xs = a.now in let ys = b.now in
        result ≡ answered (product_tests modulus rows inner columns xs ys (length out.old)) tt }
    ensures block { let xs = a.now in let ys = b.now in
        out.new ≡ product_after modulus rows inner columns xs ys out.old }
{
    let named = Modulus::try_from(modulus)?;
    if refusal::sizes_outside(rows, inner, columns) {
        return Err(Refusal::Size);
    }
    if refusal::over_block(rows, inner, columns) {
        return Err(Refusal::Block);
    }
    if length_test(rows, inner, columns, a.len(), b.len(), out.len()) {
        return Err(Refusal::Length);
    }
    if element_test(named, a, b) {
        return Err(Refusal::Element);
    }
    let sizes = Sizes {
        rows: rows as usize,
        inner: inner as usize,
        columns: columns as usize,
    };
    let shares = Shares {
        modulus: named,
        sizes,
        a,
        b,
    };
    multiply(shares, out);
    Ok(())
}
