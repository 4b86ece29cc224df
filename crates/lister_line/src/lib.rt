// A line of ten numbers, read byte by byte.
#![tactic(auto)]

ghost use Rattle.std.specs.Prelude.{◌≡◌};
ghost use Rattle.lister_line.specs.Internal.{separator, goes_on, grows, takes_digit, takes_end, step};
ghost use Rattle.lister_line.specs.Line.{line_of};

// How many numbers a line has.
const NUMBERS: usize = 10;

// The least number of five digits.
const FIVE_DIGITS: u32 = 10000;

// What an input is as a line of ten numbers: whether it is one, and its numbers.
// Of an input that is none, the numbers that end before its fault, and 0 for the others.
// Stays: `line_of`, in the clause of `read_line`, tells these numbers too.
#[derive(Clone, Copy)]
pub struct Line {
    pub ok: bool,
    pub numbers: [u32; NUMBERS],
}

// How far a line is read: whether it has no fault so far; the present number, where it is begun; how many numbers have
// ended, and these.
// Stays: a fault is kept beside the numbers, since `line_of` tells those before it.
#[derive(Clone, Copy)]
struct Progress {
    ok: bool,
    present: Option<u32>,
    count: usize,
    numbers: [u32; NUMBERS],
}

// The byte after number k, with k from 0.
#[tactic(auto, unfolding(crate::specs::Internal::separator))]
fn separator_after(k: usize) -> u8
    ensures { result ≡ separator k }
{
    if k == NUMBERS - 1 { b'\n' } else { b' ' }
}

// The line has no fault so far, and is not at its end.
#[tactic(auto, unfolding(crate::specs::Internal::goes_on))]
fn goes_on(p: Progress) -> bool
    ensures { result ≡ goes_on p }
{
    p.ok && p.count < NUMBERS
}

// The present number may have a further digit: it has at most four, and is not a 0.
#[tactic(auto, unfolding(crate::specs::Internal::grows))]
fn may_grow(p: Progress) -> bool
    ensures { result ≡ grows p }
{
    match p.present {
        None => true,
        Some(value) => 0 < value && value < FIVE_DIGITS,
    }
}

// The byte is a further digit of the present number.
#[tactic(auto, unfolding(crate::specs::Internal::takes_digit, crate::specs::Internal::is_digit))]
fn takes_digit(p: Progress, byte: u8) -> bool
    ensures { result ≡ takes_digit p byte }
{
    goes_on(p) && byte.is_ascii_digit() && may_grow(p)
}

// The byte ends the present number.
#[tactic(auto, unfolding(crate::specs::Internal::takes_end))]
fn takes_end(p: Progress, byte: u8) -> bool
    ensures { result ≡ takes_end p byte }
{
    goes_on(p) && p.present.is_some() && byte == separator_after(p.count)
}

// The progress after one byte more.
fn read_byte(p: Progress, byte: u8) -> Progress
    ensures { result ≡ step p byte }
{
    let mut next = p;
    let value = p.present.unwrap_or(0);
    if takes_digit(p, byte) {
        next.present = Some(value * 10 + (byte - b'0') as u32);
    } else if takes_end(p, byte) {
        let count = p.count;
        next.numbers[count] = value;
        next.count = count + 1;
        next.present = None;
    } else {
        next.ok = false;
    }
    next
}

// The line of ten numbers that the input is.
pub fn read_line(input: &[u8]) -> Line
    ensures { result ≡ line_of input.now }
{
    let mut p = Progress {
        ok: true,
        present: None,
        count: 0,
        numbers: [0; NUMBERS],
    };
    for &byte in input {
        p = read_byte(p, byte);
    }
    let numbers = p.numbers;
    Line {
        ok: p.ok && p.count == NUMBERS,
        numbers,
    }
}
