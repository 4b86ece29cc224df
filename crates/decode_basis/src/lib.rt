// Lagrange's basis polynomials, each by one division of the product of all roots.
#![tactic(auto)]

ghost use Rattle.std.specs.Prelude.{◌≡◌, [], ◌∷◌, ◌+◌, ◌-◌, ◌*◌, ◌%◌, length, get_or};
ghost use Rattle.algebra.specs.Lists.{tab};
ghost use Rattle.algebra.specs.Polynomials.{add_root};
ghost use Rattle.field.specs.Modulus.{prime};
ghost use Rattle.decode_basis.specs.Internal.{coefficients, root_product, quotient, basis_scale};

use field::Modulus;
use words::wide_product;

// The polynomial 1, in as many coefficients as have room.
fn set_one(out: &mut [u32])
    ensures { out.new ≡ tab (λ e. get_or (1 ∷ []) e 0) (length out.old) }
{
    out.fill(0);
    if let Some(first) = out.first_mut() {
        *first = 1;
    }
}

// a plus b times c, modulo the prime.
fn plus_product(modulus: Modulus, a: u32, b: u32, c: u32) -> u32
    ensures { result ≡ (a + b * c) % prime modulus }
{
    field::reduce(modulus, a as u64 + wide_product(b, c))
}

// A polynomial times (X - y), modulo the prime; it keeps its number of coefficients.
fn times_root(modulus: Modulus, y: u32, cs: &mut [u32])
    ensures { cs.new
        ≡ coefficients (prime modulus) (add_root (prime modulus - y % prime modulus) cs.old) (length cs.old) }
{
    let root = field::reduce(modulus, y as u64);
    let minus = field::prime_of(modulus) - root;
    let mut before = 0;
    for c in cs.iter_mut() {
        let here = *c;
        *c = plus_product(modulus, before, minus, here);
        before = here;
    }
}

// The first coefficients of the product of (X - y) over the points y, as many as have room.
pub fn from_roots(modulus: Modulus, points: &[u32], out: &mut [u32])
    ensures { out.new
        ≡ coefficients (prime modulus) (root_product (prime modulus) points.now) (length out.old) }
{
    set_one(out);
    for y in points.iter().rev() {
        times_root(modulus, *y, out);
    }
}

// The quotient of a polynomial by (X - x). It has as many coefficients as have room, and the polynomial one more: what it has
// past that is not looked at.
pub fn divide_root(modulus: Modulus, cs: &[u32], x: u32, out: &mut [u32])
    ensures { out.new ≡ quotient (prime modulus) x cs.now (length out.old) }
{
    let mut value = 0;
    for e in (0..out.len()).rev() {
        let next = cs.get(e + 1).copied().unwrap_or(0);
        value = plus_product(modulus, next, x, value);
        out[e] = value;
    }
}

// What the quotient of x is to be multiplied by: the inverse of each difference of x and another point.
pub fn basis_scale(modulus: Modulus, x: u32, points: &[u32]) -> u32
    ensures { result ≡ basis_scale (prime modulus) x points.now }
{
    let q = field::prime_of(modulus);
    let own = field::reduce(modulus, x as u64);
    let mut scale = 1;
    for y in points.iter().rev() {
        let other = field::reduce(modulus, *y as u64);
        if own != other {
            let difference = own + (q - other);
            let inverse = field_inverse::inverse_of(modulus, difference);
            scale = field::multiply(modulus, inverse, scale);
        }
    }
    scale
}
