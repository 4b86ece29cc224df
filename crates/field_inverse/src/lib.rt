// Inverses in the prime field.
#![tactic(auto)]

ghost use Rattle.std.specs.Prelude.{◌≡◌};
ghost use Rattle.algebra.specs.Modular.{inverse};
ghost use Rattle.field.specs.Modulus.{prime};

use field::Modulus;

// The inverse of a modulo the prime, by Euclid's remainders of the prime and a; 0 has none, and gives 0.
pub fn inverse_of(modulus: Modulus, a: u32) -> u32
    ensures { result ≡ inverse (prime modulus) a }
{
    let q = field::prime_of(modulus);
    let mut last = q;
    let mut next = field::reduce(modulus, a as u64);
    // Sizes of factors: a times a remainder's factor, with its sign, leaves the remainder.
    // The signs alternate, and minus says whether the last factor is negative.
    let mut last_factor = 0;
    let mut next_factor = 1;
    let mut minus = true;
    // Stays: the form of 01, a loop whose break yields the inverse; it goes over remainders, and counts no index.
    loop {
        if next == 0 {
            // The last remainder is 1 and its factor the inverse; where a is 0, it is q and its factor 0.
            break if minus && 0 < last_factor {
                q - last_factor
            } else {
                last_factor
            };
        }
        let quotient = last / next;
        let remainder = last % next;
        let new_factor = last_factor + quotient * next_factor;
        last = next;
        next = remainder;
        last_factor = next_factor;
        next_factor = new_factor;
        minus = !minus;
    }
}
