// The prime field: modulus numbers, elements, products and powers.
#![tactic(auto)]

ghost use Rattle.std.specs.Prelude.{◌≡◌, [], ◌∷◌, ◌*◌, ◌^◌, ◌%◌};
ghost use Rattle.refusal.specs.Chain.{answered};
ghost use Rattle.algebra.specs.Lists.{all_below};
ghost use Rattle.field.specs.Modulus.{prime, no_modulus, named, modulus_in};

use refusal::Refusal;

// The moduli of 01 and 02: each is the prime in its name.
#[derive(Clone, Copy, Debug, PartialEq, Eq)]
pub enum Modulus {
    Q13,
    Q257,
    Q65537,
    Q2147483647,
}

// The modulus of a modulus number: 1, 2, 3, 4; another number is refused.
impl TryFrom<u32> for Modulus {
    type Error = Refusal;

    ghost try_from_gives = { λ n outcome. outcome ≡ answered ((no_modulus n, 1) ∷ []) (modulus_in (named n)) };

    fn try_from(number: u32) -> Result<Self, Refusal> {
        match number {
            1 => Ok(Modulus::Q13),
            2 => Ok(Modulus::Q257),
            3 => Ok(Modulus::Q65537),
            4 => Ok(Modulus::Q2147483647),
            0 | 5..=0xFFFF_FFFF => Err(Refusal::Modulus),
        }
    }
}

// The prime of a modulus.
pub fn prime_of(modulus: Modulus) -> u32
    ensures { result ≡ prime modulus }
{
    match modulus {
        Modulus::Q13 => 13,
        Modulus::Q257 => 257,
        Modulus::Q65537 => 65537,
        Modulus::Q2147483647 => 2147483647,
    }
}

// Every element is below the prime. The loop has no early end, so that several elements can be compared at once.
pub fn all_below(modulus: Modulus, xs: &[u32]) -> bool
    ensures { result ≡ all_below (prime modulus) xs.now }
{
    let q = prime_of(modulus);
    let mut over = false;
    for x in xs {
        over = over | (q <= *x);
    }
    !over
}

// A number modulo the prime: each remainder is by a constant.
pub fn reduce(modulus: Modulus, n: u64) -> u32
    ensures { result ≡ n % prime modulus }
{
    match modulus {
        Modulus::Q13 => (n % 13) as u32,
        Modulus::Q257 => (n % 257) as u32,
        Modulus::Q65537 => (n % 65537) as u32,
        Modulus::Q2147483647 => (n % 2147483647) as u32,
    }
}

// The product of two numbers, modulo the prime.
pub fn multiply(modulus: Modulus, a: u32, b: u32) -> u32
    ensures { result ≡ a * b % prime modulus }
{
    reduce(modulus, words::wide_product(a, b))
}

// x to the exponent, modulo the prime, by halving the exponent: each step squares the base, and takes it as a factor where what is
// left of the exponent is odd.
pub fn power(modulus: Modulus, x: u32, exponent: u32) -> u32
    ensures { result ≡ x ^ exponent % prime modulus }
{
    let mut product = 1;
    let mut base = x;
    let mut rest = exponent;
    // Stays: the exponent is halved, and no index counted.
    while 0 < rest {
        if rest % 2 == 1 {
            product = multiply(modulus, product, base);
        }
        base = multiply(modulus, base, base);
        rest /= 2;
    }
    product
}
