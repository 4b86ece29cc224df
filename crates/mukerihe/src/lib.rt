// The host's part for a partner's C program: the product alone, big-endian bytes in and out; and the whole part, messages in and
// out. C calls it by the crate `mukerihe_c`.
#![tactic(auto)]

ghost use Rattle.std.specs.Prelude.{◌≡◌, ◌/◌, ◌≤◌, min, length};
ghost use Rattle.refusal.specs.Chain.{answered};
ghost use Rattle.refusal.specs.Limits.{most_elements};
ghost use Rattle.mukerihe.specs.Host.{host_tests, host_after};
ghost use Rattle.mukerihe.specs.Answer.{pair_header, pair_tests, host_answer, host_answer_tests, host_answer_after};
ghost use Rattle.mukerihe.specs.Internal.{whole_elements};

use message_header::{HEADER_BYTES, Header, Kind};
use refusal::{MOST_ELEMENTS, Refusal};

// Where no buffer holds more elements than this, arrays of only so many are made: to make the most takes longer than a small
// product.
const FEW_ELEMENTS: usize = 256;

// The numbers of a call: the modulus number, and the sizes of the product, rows by inner times inner by columns.
#[derive(Clone, Copy)]
struct Numbers {
    modulus: u32,
    rows: u32,
    inner: u32,
    columns: u32,
}

// How many elements a buffer of that many bytes holds; 0, which no block has, where it holds no whole block.
fn element_count(bytes: usize) -> usize
    ensures { result ≡ whole_elements bytes }
{
    if (bytes % 4 != 0) | (MOST_ELEMENTS < bytes / 4) {
        0
    } else {
        bytes / 4
    }
}

// The product of two shares as bytes. Their elements, and those of the product, are put into arrays of N: each has room for as
// many as its buffer holds, or for the most that a block has.
// Stays: the buffers of C's call, handed on once.
fn product_in<const N: usize>(n: Numbers, a: &[u8], b: &[u8], out: &mut [u8]) -> Result<(), Refusal>
    requires { min (length a.now / 4) most_elements ≤ N
        × min (length b.now / 4) most_elements ≤ N
        × min (length out.old / 4) most_elements ≤ N
        × N ≤ most_elements }
    ensures number { let xs = a.now in let ys = b.now in
        result ≡ answered (host_tests n.modulus n.rows n.inner n.columns xs ys (length out.old)) tt }
    ensures block { let xs = a.now in let ys = b.now in
        out.new ≡ host_after n.modulus n.rows n.inner n.columns xs ys out.old }
{
    let mut left = [0u32; N];
    let mut right = [0u32; N];
    let mut block = [0u32; N];
    message_bytes::read_elements(a, &mut left);
    message_bytes::read_elements(b, &mut right);
    let left_count = element_count(a.len());
    let right_count = element_count(b.len());
    let count = element_count(out.len());
    product::product(
        n.modulus,
        n.rows,
        n.inner,
        n.columns,
        &left[..left_count],
        &right[..right_count],
        &mut block[..count],
    )?;
    message_bytes::write_elements(&block[..count], out);
    Ok(())
}

// The product of two shares as bytes: rows by inner times inner by columns. The output then holds it; or the call is refused, and
// no byte of the output changes.
// Stays: the signature is that of C's call.
pub fn mukerihe_product(
    modulus: u32,
    rows: u32,
    inner: u32,
    columns: u32,
    a: &[u8],
    b: &[u8],
    out: &mut [u8],
) -> Result<(), Refusal>
    ensures number { let xs = a.now in let ys = b.now in
        result ≡ answered (host_tests modulus rows inner columns xs ys (length out.old)) tt }
    ensures block { let xs = a.now in let ys = b.now in
        out.new ≡ host_after modulus rows inner columns xs ys out.old }
{
    let n = Numbers {
        modulus,
        rows,
        inner,
        columns,
    };
    let most = a.len().max(b.len()).max(out.len()) / 4;
    if most <= FEW_ELEMENTS {
        product_in::<FEW_ELEMENTS>(n, a, b, out)
    } else {
        product_in::<MOST_ELEMENTS>(n, a, b, out)
    }
}

// The header of the answer to two shares.
fn pair_header(g: Header, h: Header) -> Header
    ensures { result ≡ pair_header g h }
{
    Header {
        kind: u32::from(Kind::Answer),
        modulus: g.modulus,
        host: g.host,
        rows: g.rows,
        columns: h.columns,
        number: g.number,
    }
}

// The tests of two messages together, where the output has room for that many bytes.
fn check_pair(g: Header, h: Header, room: usize) -> Result<(), Refusal>
    ensures { result ≡ answered (pair_tests g h room) tt }
{
    if (g.kind != u32::from(Kind::AShare)) | (h.kind != u32::from(Kind::BShare)) {
        return Err(Refusal::PairKinds);
    }
    if g.modulus != h.modulus {
        return Err(Refusal::PairModuli);
    }
    if g.host != h.host {
        return Err(Refusal::PairHosts);
    }
    if g.number != h.number {
        return Err(Refusal::PairJobs);
    }
    if g.columns != h.rows {
        return Err(Refusal::PairSizes);
    }
    if refusal::too_large(g.rows, h.columns) {
        return Err(Refusal::Block);
    }
    if room < HEADER_BYTES + 4 * (g.rows * h.columns) as usize {
        return Err(Refusal::Length);
    }
    Ok(())
}

// A host's whole part: the message of its A share and that of its B share in, the message of its answer out. The answer then stands
// at the front of the output, and how many bytes it has is returned; or the call is refused, and no byte of the output changes.
// The product of shares that pass these tests is not refused.
pub fn mukerihe_answer(a: &[u8], b: &[u8], out: &mut [u8]) -> Result<usize, Refusal>
    ensures outcome { let xs = a.now in let ys = b.now in
        result ≡ answered (host_answer_tests xs ys (length out.old)) (length (host_answer xs ys)) }
    ensures bytes { out.new ≡ host_answer_after a.now b.now out.old }
{
    let g = message::examine(a)?;
    let h = message::examine(b)?;
    check_pair(g, h, out.len())?;
    let end = HEADER_BYTES + 4 * (g.rows * h.columns) as usize;
    let head = message_header::header_bytes(pair_header(g, h));
    message_bytes::copy_bytes(&head, out);
    mukerihe_product(
        g.modulus,
        g.rows,
        g.columns,
        h.columns,
        &a[HEADER_BYTES..],
        &b[HEADER_BYTES..],
        &mut out[HEADER_BYTES..end],
    )
    .unwrap();
    Ok(end)
}
