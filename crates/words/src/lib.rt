// What the crates above share: wide products of machine words, and rooms of one value.
#![tactic(auto)]

ghost use Rattle.std.specs.Prelude.{◌≡◌, ◌*◌, length};

// The product of two numbers of 32 bits, in 64.
pub fn wide_product(a: u32, b: u32) -> u64
    ensures { result ≡ a * b }
{
    u64::from(a) * u64::from(b)
}

// Room for as many elements as the type says, all one value. Lending it needs their number alone.
pub fn room<T: Copy, const N: usize>(value: T) -> [T; N]
    ensures { N ≡ length result }
{
    [value; N]
}
