// The plan lister as a program: one line of ten numbers on standard input, the plan or a refusal on standard output.
#![tactic(auto)]

use program_lines::{STDIN_FILENO, STDOUT_FILENO};

fn main() {
    // A line has at most 60 bytes, so a longer input is seen to be no line.
    let mut input = io::buffer();
    let n = io::read_full(STDIN_FILENO, &mut input);
    let mut out = [0u8; lister::LISTING_ROOM];
    let length = lister::list(&input[..n], &mut out);
    io::write_all(STDOUT_FILENO, &out[..length]);
}
