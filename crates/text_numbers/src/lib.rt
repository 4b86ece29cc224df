// Whole numbers and words read from plain text, and positions in a text by line and column. `specs/Numbers.antt` and
// `specs/Words.antt` have the format.
#![tactic(auto)]

ghost use Rattle.std.specs.Prelude.{◌≡◌, Bool, true, false, ℕ, ◌<◌, ◌^◌, length, take, drop, MatchOption};
ghost use Rattle.text_numbers.specs.Numbers.{
  is_digit,
  ends_line,
  sets_apart,
  value_of,
  grown,
  fits,
  after,
  ends,
  numbers_of,
  read_outcome,
  front,
};
ghost use Rattle.text_numbers.specs.Words.{
  is_letter,
  gap,
  next,
  begins,
  first_from,
  first_token,
  first_word,
  token_end,
  byte_at,
  mark_length,
};
ghost use Rattle.text_numbers.specs.Positions.{paired, moved, position_of};

// The least value that is too large: 2^32.
const LIMIT: u64 = 1 << 32;

// The mark that a text in UTF-8 may begin with.
const MARK: &[u8] = b"\xEF\xBB\xBF";

// A fault in a text, and its offset.
#[derive(Clone, Copy, Debug, PartialEq, Eq)]
pub struct Fault {
    pub at: usize,
}

// A position in a text, with line and column from 1.
#[derive(Clone, Copy, Debug, PartialEq, Eq)]
pub struct Position {
    pub line: usize,
    pub column: usize,
}

// Where in a text a byte stands: in a comment, outside comments and numbers, or after some digits of a number, of this value.
#[derive(Clone, Copy)]
enum Part {
    Comment,
    Gap,
    Number(u32),
}

// What stands before a byte of a text: a comment, a token that goes on, or neither.
#[derive(Clone, Copy)]
enum Before {
    Comment,
    Token,
    Gap,
}

// The byte ends a line.
#[tactic(auto, unfolding(crate::specs::Numbers::ends_line))]
fn ends_line(byte: u8) -> bool
    ensures { result ≡ ends_line byte }
{
    matches!(byte, b'\n' | b'\r')
}

// The byte may stand between numbers: white space, or the sign of a comment.
#[tactic(auto, unfolding(crate::specs::Numbers::sets_apart))]
fn sets_apart(byte: u8) -> bool
    ensures { result ≡ sets_apart byte }
{
    matches!(byte, b' ' | b'\t' | b'\n' | b'\r' | b'#')
}

// The value with one more digit.
#[tactic(auto, unfolding(crate::specs::Numbers::grown, crate::specs::Numbers::value_of, crate::specs::Numbers::is_digit, crate::specs::Numbers::within))]
fn with_digit(part: Part, byte: u8) -> u64
    requires { is_digit byte ≡ true }
    ensures { result ≡ grown part byte }
{
    let value = match part {
        Part::Number(value) => value,
        _ => 0,
    };
    u64::from(value) * 10 + u64::from(byte - b'0')
}

// The byte is no fault in that part, room aside.
#[tactic(auto, unfolding(crate::specs::Numbers::fits, crate::specs::Numbers::in_comment, crate::specs::Numbers::is_digit, crate::specs::Numbers::within))]
fn fits_in(part: Part, byte: u8) -> bool
    ensures { result ≡ fits part byte }
{
    match part {
        Part::Comment => true,
        _ if byte.is_ascii_digit() => with_digit(part, byte) < LIMIT,
        _ => sets_apart(byte),
    }
}

// The part after a byte, which fits.
#[tactic(auto, unfolding(crate::specs::Numbers::after, crate::specs::Numbers::in_comment, crate::specs::Numbers::apart, crate::specs::Numbers::number, crate::specs::Numbers::fits, crate::specs::Numbers::is_digit, crate::specs::Numbers::within))]
fn part_after(part: Part, byte: u8) -> Part
    requires { fits part byte ≡ true }
    ensures { result ≡ after part byte }
{
    match part {
        Part::Comment if ends_line(byte) => Part::Gap,
        Part::Comment => Part::Comment,
        _ if byte.is_ascii_digit() => Part::Number(with_digit(part, byte) as u32),
        _ if byte == b'#' => Part::Comment,
        _ => Part::Gap,
    }
}

// The number that a byte ends, where it ends one.
#[tactic(auto, unfolding(crate::specs::Numbers::ends, crate::specs::Numbers::has_digits, crate::specs::Numbers::value_of, crate::specs::Numbers::is_digit, crate::specs::Numbers::within))]
fn ended(part: Part, byte: u8) -> Option<u32>
    ensures { MatchOption result (ends part byte ≡ false) (λ v. (ends part byte ≡ true) × (v ≡ value_of part)) }
{
    match part {
        Part::Number(value) if !byte.is_ascii_digit() => Some(value),
        _ => None,
    }
}

// The byte at an offset of the text, and a line feed past its end.
fn byte_at(text: &[u8], at: usize) -> u8
    ensures { result ≡ byte_at text.now at }
{
    text.get(at).copied().unwrap_or(b'\n')
}

// Reads the numbers of the text to the front of the output, one after another, and returns how many. At a fault it stops and
// returns its offset.
pub fn read_numbers(text: &[u8], out: &mut [u32]) -> Result<usize, Fault>
    ensures outcome { result ≡ read_outcome text.now (length out.old) }
    ensures output { let was = out.old in out.new ≡ front (numbers_of text.now (length was)) was }
{
    let mut part = Part::Gap;
    let mut n = 0;
    for at in 0..=text.len() {
        let byte = byte_at(text, at);
        if !fits_in(part, byte) {
            return Err(Fault { at });
        }
        if let Some(value) = ended(part, byte) {
            if n == out.len() {
                return Err(Fault { at });
            }
            out[n] = value;
            n += 1;
        }
        part = part_after(part, byte);
    }
    Ok(n)
}

// A digit stands at an offset of the text. Where reading has found a fault at it, the number is too large.
#[tactic(auto, unfolding(crate::specs::Numbers::is_digit, crate::specs::Numbers::within))]
pub fn is_digit_at(text: &[u8], at: usize) -> bool
    ensures { result ≡ is_digit (byte_at text.now at) }
{
    byte_at(text, at).is_ascii_digit()
}

// ---- words

// The byte is that of a letter, or _.
#[tactic(auto, unfolding(crate::specs::Words::is_letter, crate::specs::Numbers::within))]
fn is_letter(byte: u8) -> bool
    ensures { result ≡ is_letter byte }
{
    byte.is_ascii_alphabetic() || byte == b'_'
}

// What stands before the byte after this one.
#[tactic(auto, unfolding(crate::specs::Words::next))]
fn before_next(before: Before, byte: u8) -> Before
    ensures { result ≡ next before byte }
{
    match before {
        Before::Comment if ends_line(byte) => Before::Gap,
        Before::Comment => Before::Comment,
        _ if byte == b'#' => Before::Comment,
        _ if sets_apart(byte) => Before::Gap,
        _ => Before::Token,
    }
}

// The offset of the first byte outside comments and tokens that the test is true of; the text's length, where there is none.
fn first_of<F: Fn(u8) -> bool>(text: &[u8], is_first: F) -> usize
    requires { F.IsAlwaysCallable is_first }
    ensures { (words : Bool) → ((b : ℕ) (r : Bool) → F.post is_first b r → r ≡ begins words gap b) → result ≡ first_from words gap text.now }
{
    let mut before = Before::Gap;
    for (i, &byte) in text.iter().enumerate() {
        match before {
            Before::Gap if is_first(byte) => return i,
            _ => before = before_next(before, byte),
        }
    }
    text.len()
}

// The offset of the first token of the text; its length, where there is none.
pub fn first_token(text: &[u8]) -> usize
    ensures { result ≡ first_token text.now }
{
    first_of(text, |byte| !sets_apart(byte))
}

// The offset of the first word of the text; its length, where there is none.
pub fn first_word(text: &[u8]) -> usize
    ensures { result ≡ first_word text.now }
{
    first_of(text, is_letter)
}

// The end of the token at the front of the text: the offset of the first byte that sets apart, or the text's length.
pub fn token_end(text: &[u8]) -> usize
    ensures { result ≡ token_end text.now }
{
    for (i, &byte) in text.iter().enumerate() {
        if sets_apart(byte) {
            return i;
        }
    }
    text.len()
}

// ---- parts of a text

// So many bytes from the front of the text, or all.
pub fn front_of(text: &[u8], count: usize) -> &[u8]
    ensures { result.now ≡ take count text.now }
{
    &text[..count.min(text.len())]
}

// The text from an offset on; nothing past its end.
// Stays: one line as `next_rows` of sums; one function of both would be called from two crates that share none below.
pub fn rest_of(text: &[u8], at: usize) -> &[u8]
    ensures { result.now ≡ drop at text.now }
{
    &text[at.min(text.len())..]
}

// The text without the UTF-8 mark.
pub fn past_mark(text: &[u8]) -> &[u8]
    ensures { result.now ≡ drop (mark_length text.now) text.now }
{
    text.strip_prefix(MARK).unwrap_or(text)
}

// ---- positions

// The byte is the line feed after a carriage return.
#[tactic(auto, unfolding(crate::specs::Positions::paired))]
fn is_paired(before: u8, byte: u8) -> bool
    ensures { result ≡ paired before byte }
{
    before == b'\r' && byte == b'\n'
}

// The position after one more byte. The line feed after a carriage return moves nothing: the line has ended.
#[tactic(auto, unfolding(crate::specs::Positions::moved))]
fn position_after(before: u8, position: Position, byte: u8) -> Position
    requires { (position.line < 2 ^ 63) × (position.column < 2 ^ 63) }
    ensures { result ≡ moved before position byte }
{
    if is_paired(before, byte) {
        return position;
    }
    if ends_line(byte) {
        return Position {
            line: position.line + 1,
            column: 1,
        };
    }
    Position {
        line: position.line,
        column: position.column + 1,
    }
}

// The position of the byte at an offset of the text; at the text's length and beyond, that of its end.
pub fn position_of(text: &[u8], at: usize) -> Position
    ensures { result ≡ position_of text.now at }
{
    let mut position = Position { line: 1, column: 1 };
    let mut before = 0;
    for &byte in front_of(text, at) {
        position = position_after(before, position, byte);
        before = byte;
    }
    position
}
