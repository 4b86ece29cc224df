// A whole job: reads a job, its points, both matrices, the masks and the order of the answers with their minutes from plain
// text, and does all that the bank and the hosts do: plans, shares, multiplies, sends every block as a message, takes the
// answers in the order given, and decodes. Prints the plan, what became of each answer, the table, its signed reading, and the
// kinship page. README.md, "A whole job from plain text", tells the format and every line that is printed.
#![tactic(auto)]

mod arrivals; // the answers taken, and the hosts heard
mod blocks; // the sizes of blocks, and where they stand
mod hosts; // what a host does with its shares
mod lines; // lines to print
mod planning; // the job, planned, with as many numbers as it needs
mod sections; // the sections of the text
mod sharing; // shares for all hosts
mod tables; // the table, decoded and printed, and its kinship page

use blocks::{ELEMENT_ROOM, answer_size, total};
use planning::Whole;
use program_lines::{STDIN_FILENO, say, say_refused};
use refusal::Refusal;
use sections::MOST_TEXT;
use text_numbers::past_mark;
use words::room;

// Runs a job that is planned: makes the shares of all hosts, takes the answers, and decodes and prints the table.
fn run(whole: &Whole) -> Result<(), Refusal> {
    let mut shares_a = room::<u32, ELEMENT_ROOM>(0);
    let mut shares_b = room::<u32, ELEMENT_ROOM>(0);
    let shares = sharing::share_both(whole, &mut shares_a, &mut shares_b)?;
    let n = total(whole.job.hosts, answer_size(whole.plan)).min(ELEMENT_ROOM);
    let mut store = room::<u32, ELEMENT_ROOM>(0);
    let heard = arrivals::hear_all(whole, shares, &mut store[..n]);
    arrivals::say_heard(heard);
    tables::say_table(whole, heard, &store[..n])
}

// Reads the text, plans its job and runs it; prints the number of a refusal. A UTF-8 mark before the text is passed over.
fn main() {
    let mut text = io::large_buffer();
    let n = io::read_full(STDIN_FILENO, &mut text);
    if n == MOST_TEXT {
        say(b"TEXT TOO LONG: at most 65535 bytes\n");
        return;
    }
    let mut numbers = room::<u32, ELEMENT_ROOM>(0);
    let Some(whole) = planning::prepare(past_mark(&text[..n]), &mut numbers) else {
        return;
    };
    if let Err(refusal) = run(&whole) {
        say_refused(refusal.number());
    }
}
