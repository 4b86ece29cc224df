// Masks drawn from random words: reads a modulus number, how many elements are wanted, and the words, in plain text. Prints how
// many words were used, and the elements; or what is wrong. README.md, "Masks from random words", tells the format.
#![tactic(auto)]

ghost use Rattle.std.specs.Prelude.{◌≡◌, length};

use program_lines::{STDIN_FILENO, say, say_fault, say_front, say_number, say_refused};
use text::Writer;
use text_numbers::past_mark;
use words::room;

// A text must be shorter than this: room for the words of the largest side, as `od` writes them, and some more.
const MOST_TEXT: usize = 786432;

// A text has no more numbers: a byte stands between two.
const MOST_NUMBERS: usize = 393216;

// The masks of the largest side: 16, each of 4096 elements.
const MOST_ELEMENTS: usize = 65536;

// Reads the numbers of a text, and returns how many; prints what is wrong with it, and then returns 0.
fn read(text: &[u8], numbers: &mut [u32]) -> usize
    ensures { length numbers.new ≡ length numbers.old }
{
    match text_numbers::read_numbers(text, numbers) {
        Err(fault) => {
            say_fault(text, fault.at);
            0
        }
        Ok(count) => {
            if count < 2 {
                say(b"EXPECTED a modulus number and a number of elements\n");
                return 0;
            }
            count
        }
    }
}

// Writes the elements in decimal, one a line.
fn put_elements(w: &mut Writer, elements: &[u32]) {
    for &element in elements {
        w.put_decimal(element);
        w.put(b"\n");
    }
}

// Draws elements from words and prints how many words were used, and the elements; or the number of the refusal.
fn draw(modulus: u32, words: &[u32], elements: &mut [u32], lines: &mut [u8]) {
    match masks::draw_masks(modulus, words, elements) {
        Err(refusal) => say_refused(refusal.number()),
        Ok(used) => {
            say_number(b"# USED ", used as u64);
            say(b"\n");
            let mut w = Writer { out: lines, at: 0 };
            put_elements(&mut w, elements);
            let n = w.at;
            say_front(w.out, n);
        }
    }
}

// Draws so many elements from words, where there is room for them.
fn draw_wanted(modulus: u32, wanted: u32, words: &[u32], elements: &mut [u32], lines: &mut [u8]) {
    let n = wanted as usize;
    if elements.len() < n {
        return say(b"TOO MANY ELEMENTS: at most 65536\n");
    }
    draw(modulus, words, &mut elements[..n], lines);
}

// Draws as many elements as the second number says, by the modulus of the first, from the words after them.
fn run(numbers: &[u32], elements: &mut [u32], lines: &mut [u8]) {
    if 2 <= numbers.len() {
        draw_wanted(numbers[0], numbers[1], &numbers[2..], elements, lines);
    }
}

// Reads the text, makes the rooms, and draws. The room of the text is that of the lines to print then.
fn main() {
    let mut text = room::<u8, MOST_TEXT>(0);
    let n = io::read_full(STDIN_FILENO, &mut text);
    if n == MOST_TEXT {
        say(b"TEXT TOO LONG: at most 786431 bytes\n");
        return;
    }
    let mut numbers = room::<u32, MOST_NUMBERS>(0);
    let count = read(past_mark(&text[..n]), &mut numbers).min(MOST_NUMBERS);
    let mut elements = room::<u32, MOST_ELEMENTS>(0);
    run(&numbers[..count], &mut elements, &mut text);
}
