// Runs the plan lister on many inputs, one after another: each case is a length of two bytes, big-endian, and as many
// bytes of input. What the lister prints goes to standard output. The cases and the outputs are those of the separate
// Rust program in docs/src.
#![tactic(auto)]

ghost use Rattle.std.specs.Prelude.{◌<◌, length};

use program_lines::{STDIN_FILENO, STDOUT_FILENO};

// Prints the listing of the first case, and returns the cases behind it; none where no case is whole.
fn run_case(cases: &[u8]) -> &[u8]
    ensures { 0 < length cases.now → length result.now < length cases.now }
{
    let Some((size, rest)) = cases.split_first_chunk() else {
        return &[];
    };
    let size = u16::from_be_bytes(*size) as usize;
    let Some((input, others)) = rest.split_at_checked(size) else {
        return &[];
    };
    let mut out = [0u8; lister::LISTING_ROOM];
    let length = lister::list(input, &mut out);
    io::write_all(STDOUT_FILENO, &out[..length]);
    others
}

fn main() {
    let mut cases = io::large_buffer();
    let n = io::read_full(STDIN_FILENO, &mut cases);
    let mut rest = &cases[..n];
    // Stays: a case tells its own length, so no index is counted.
    while !rest.is_empty() {
        rest = run_case(rest);
    }
}
