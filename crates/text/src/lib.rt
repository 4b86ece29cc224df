// Text in a buffer: bytes, and numbers in decimal.
#![tactic(auto)]

ghost use Rattle.std.specs.Prelude.{◌≡◌, ◌+◌, ◌-◌, ◌/◌, ◌%◌, ◌<◌, length};
ghost use Rattle.algebra.specs.Lists.{tab};
ghost use Rattle.text.specs.Decimal.{digit, decimal};
ghost use Rattle.text.specs.Internal.{last_digits, put_last, Writes};

// How many digits a u32 has at most.
const DIGITS: usize = 10;

// The last digit of n, by its tenth: with `%` in place of the tenth, pages would take longer.
#[tactic(auto, unfolding(crate::specs::Decimal::digit))]
fn last_digit(n: u32, tenth: u32) -> u8
    requires { tenth ≡ n / 10 }
    ensures { result ≡ digit (n % 10) }
{
    b'0' + (n - 10 * tenth) as u8
}

// A place in a buffer to write on: the offset of the next byte.
#[derive(Drop)]
pub struct Writer<'a> {
    pub out: &'a mut [u8],
    pub at: usize,
}

impl Writer<'_> {
    // Writes the bytes. Where they do not fit, it writes nothing.
    pub fn put(&mut self, bytes: &[u8])
        ensures written { Writes self.old bytes.now self.new }
        ensures nothing { length self.old.out.now < self.old.at + length bytes.now → self.new ≡ self.old }
    {
        let at = self.at;
        if self.out.len() < at || self.out.len() - at < bytes.len() {
            return;
        }
        let end = at + bytes.len();
        self.out[at..end].copy_from_slice(bytes);
        self.at = end;
    }

    // Writes the decimal digits of n. Where they do not fit, it writes nothing.
    pub fn put_decimal(&mut self, n: u32)
        ensures written { Writes self.old (decimal n) self.new }
        ensures nothing { length self.old.out.now < self.old.at + length (decimal n) → self.new ≡ self.old }
    {
        let mut digits = [b'0'; DIGITS];
        let start = put_digits(&mut digits, n);
        self.put(&digits[start..]);
    }
}

// Fills a buffer with one byte.
#[tactic(auto, using(crate::proofs::Puts::same_bytes))]
pub fn fill(out: &mut [u8], byte: u8)
    ensures { out.new ≡ tab (λ i. byte) (length out.old) }
{
    out.fill(byte);
}

// Writes the decimal digits of n to the end of a buffer, the last of them where they have no room, and returns the offset of the
// first. The loop goes over the places: where the compiler knows how many there are, it needs no loop.
pub fn put_digits(out: &mut [u8], n: u32) -> usize
    ensures start { result ≡ length out.old - length (decimal n) }
    ensures digits { out.new ≡ put_last out.old (decimal n) }
{
    let mut rest = n;
    for start in (0..out.len()).rev() {
        let tenth = rest / 10;
        out[start] = last_digit(rest, tenth);
        if rest < 10 {
            return start;
        }
        rest = tenth;
    }
    0
}

// Fills a buffer with the last digits of n, as many as it has bytes.
pub fn put_last_digits(out: &mut [u8], n: u32)
    ensures { out.new ≡ last_digits (length out.old) n }
{
    let mut left = n;
    for start in (0..out.len()).rev() {
        let tenth = left / 10;
        out[start] = last_digit(left, tenth);
        left = tenth;
    }
}
