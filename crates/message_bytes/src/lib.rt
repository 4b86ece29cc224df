// Elements as bytes: they travel as 4 bytes each, big-endian. They are read, written, and tested or compared where they stand.
#![tactic(auto)]

ghost use Rattle.std.specs.Prelude.{◌≡◌, ◌++◌, ◌+◌, ◌*◌, ◌/◌, ◌≤◌, min, length, take, drop};
ghost use Rattle.algebra.specs.Lists.{all_below, same};
ghost use Rattle.field.specs.Modulus.{prime};
ghost use Rattle.message_bytes.specs.Bytes.{number_at, bytes_of, elements_of};
ghost use Rattle.message_bytes.specs.Internal.{common};

use field::Modulus;

// The element whose four bytes begin at an offset.
fn element_at(bytes: &[u8], start: usize) -> u32
    requires { start + 4 ≤ length bytes.now }
    ensures { result ≡ number_at bytes.now start 4 }
{
    u32::from_be_bytes([
        bytes[start],
        bytes[start + 1],
        bytes[start + 2],
        bytes[start + 3],
    ])
}

// Reads elements from bytes, as many as there are and have room; the rest of the output stays as it was.
pub fn read_elements(bytes: &[u8], out: &mut [u32])
    ensures { let given = bytes.now in let room = out.old in let n = common given room in
        out.new ≡ elements_of n given ++ drop n room }
{
    let n = (bytes.len() / 4).min(out.len());
    for i in 0..n {
        out[i] = element_at(bytes, i * 4);
    }
}

// Writes elements as bytes, as many as there are and have room; the rest of the output stays as it was.
pub fn write_elements(xs: &[u32], out: &mut [u8])
    ensures { let given = xs.now in let room = out.old in let n = common room given in
        out.new ≡ bytes_of (take n given) ++ drop (n * 4) room }
{
    let n = (out.len() / 4).min(xs.len());
    for i in 0..n {
        let start = i * 4;
        out[start..start + 4].copy_from_slice(&xs[i].to_be_bytes());
    }
}

// Copies bytes, as many as there are and have room; the rest of the output stays as it was.
pub fn copy_bytes(bytes: &[u8], out: &mut [u8])
    ensures { let given = bytes.now in let room = out.old in let n = min (length given) (length room) in
        out.new ≡ take n given ++ drop n room }
{
    let n = bytes.len().min(out.len());
    out[..n].copy_from_slice(&bytes[..n]);
}

// Every element that the bytes hold is below the prime.
pub fn bytes_below(modulus: Modulus, bytes: &[u8]) -> bool
    ensures { let given = bytes.now in result ≡ all_below (prime modulus) (elements_of (length given / 4) given) }
{
    let q = field::prime_of(modulus);
    (0..bytes.len() / 4).all(|i| element_at(bytes, i * 4) < q)
}

// The bytes are those of the elements, four for each, and nothing after.
// Stays: bytes beside elements, which `==` does not compare; and no early end, so that several can be compared at once.
pub fn same_bytes(bytes: &[u8], xs: &[u32]) -> bool
    ensures { result ≡ same bytes.now (bytes_of xs.now) }
{
    if bytes.len() != xs.len() * 4 {
        return false;
    }
    let mut differ = 0;
    for (i, x) in xs.iter().enumerate() {
        differ |= element_at(bytes, i * 4) ^ *x;
    }
    differ == 0
}
