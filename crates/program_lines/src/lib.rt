// Lines to standard output, for the programs over plain text. What is printed is not proved, but compared.
#![tactic(auto)]

// The file descriptor of standard input.
pub const STDIN_FILENO: i32 = 0;

// The file descriptor of standard output.
pub const STDOUT_FILENO: i32 = 1;

// Prints some bytes.
pub fn say(bytes: &[u8]) {
    io::write_all(STDOUT_FILENO, bytes);
}

// Prints some bytes and a number.
pub fn say_number(bytes: &[u8], n: u64) {
    io::write_all(STDOUT_FILENO, bytes);
    io::print_decimal(STDOUT_FILENO, n);
}

// Prints the front of a buffer.
pub fn say_front(out: &[u8], count: usize) {
    say(text_numbers::front_of(out, count));
}

// Prints the line of a refusal.
pub fn say_refused(number: u32) {
    say_number(b"REFUSED ", number as u64);
    say(b"\n");
}

// Prints the line and column of the byte at an offset of the text.
pub fn say_position(text: &[u8], at: usize) {
    let position = text_numbers::position_of(text, at);
    say_number(b" at line ", position.line as u64);
    say_number(b", column ", position.column as u64);
}

// Prints that a number is too large, or that there is none, at an offset.
pub fn say_fault(text: &[u8], at: usize) {
    if text_numbers::is_digit_at(text, at) {
        say(b"NUMBER TOO LARGE");
        say_position(text, at);
        say(b": the largest is 4294967295\n");
        return;
    }
    say(b"NO NUMBER");
    say_position(text, at);
    say(b"\n");
}
