// Words and bytes of cases, from standard input and to standard output. A word is 4 bytes, big-endian.
#![tactic(auto)]

ghost use Rattle.std.specs.Prelude.{◌≡◌, ◌≤◌, length, take, drop};
ghost use Rattle.io.specs.Counts.{IsPrefixLen};

use program_lines::{STDIN_FILENO, STDOUT_FILENO};
use refusal::Refusal;
use words::room;

// How many words are read at once, at most, and their bytes; and how many are written.
const MOST_READ: usize = 32896;

const MOST_BYTES: usize = 4 * MOST_READ;

const MOST_WRITTEN: usize = 16384;

// What stands in an output before a call.
pub const FILLING: u32 = 0xA5A5A5A5;

// Reads that many bytes to the front of the buffer, or as many as it has room for and the input has; tells how many. Past the
// count that is asked for the buffer stays as it was; where the input ends before, nothing is said of the bytes up to there.
pub fn read_bytes(count: usize, out: &mut [u8]) -> usize
    ensures told { IsPrefixLen result out.new }
    ensures most { result ≤ count }
    ensures rest { drop count out.new ≡ drop count out.old }
{
    let n = count.min(out.len());
    io::read_full(STDIN_FILENO, &mut out[..n])
}

// Reads words in the same way, at most 32896; a part of a word at the end of the input is left out. Past those that it tells
// the buffer stays as it was.
pub fn read_words(count: usize, out: &mut [u32]) -> usize
    ensures told { IsPrefixLen result out.new }
    ensures most { result ≤ count }
    ensures rest { drop result out.new ≡ drop result out.old }
{
    let mut bytes = room::<u8, MOST_BYTES>(0);
    let most = count.min(out.len()).min(MOST_READ);
    let n = read_bytes(4 * most, &mut bytes);
    message_bytes::read_elements(&bytes[..n], out);
    (n / 4).min(out.len())
}

// Writes words, at most 16384.
pub fn put_words(words: &[u32]) {
    let mut bytes = io::large_buffer();
    let size = 4 * words.len().min(MOST_WRITTEN);
    message_bytes::write_elements(words, &mut bytes);
    io::write_all(STDOUT_FILENO, &bytes[..size]);
}

// Writes a number as a word.
pub fn put_number(number: u32) {
    put_words(&[number]);
}

// Writes what a call without a value returns: 0, or its refusal's number.
pub fn put_outcome(outcome: Result<(), Refusal>) {
    match outcome {
        Ok(()) => put_number(0),
        Err(refusal) => put_number(refusal.number()),
    }
}

// How many elements there are up to the last that is not the filling.
pub fn filled<T: Copy + PartialEq>(out: &[T], filling: T) -> usize
    ensures most { result ≤ length out.now }
    ensures front { result ≡ length (take result out.now) }
{
    match out.iter().rposition(|x| *x != filling) {
        Some(last) => last + 1,
        None => 0,
    }
}

// Writes an output of elements: how many there are up to the last that is not the filling, and these; at most 16384.
pub fn put_output(out: &[u32]) {
    let n = filled(out, FILLING).min(MOST_WRITTEN);
    put_number(n as u32);
    put_words(&out[..n]);
}
