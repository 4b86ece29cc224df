// Runs plans, shares, products, messages, signed reading, drawings of masks, pages and a host's whole part on many inputs: cases
// come from standard input, one after another, and what they return goes to standard output. Both are those of the separate Rust
// program, whose docs/src/calls/format.rs tells their format.
#![tactic(auto)]

ghost use Rattle.std.specs.Prelude.{◌≡◌, ◌≤◌, length};

use message_header::Header;
use plan::{Job, Plan, job_of};
use program_lines::STDOUT_FILENO;
use refusal::Refusal;
use share::Matrix;
use test_io::{filled, put_number, put_outcome, put_words};
use words::room;

// A case: its words, whose first is the number of its call, and its lists.
#[derive(Clone, Copy)]
struct Case<'a> {
    head: [u32; HEAD_WORDS],
    points: &'a [u32],
    xs: &'a [u32],
    ys: &'a [u32],
}

// What stands in an output of bytes before a call.
const FILLING_BYTE: u8 = 0xA5;

// The largest case: the words of its lists, the bytes of a message or of two, the elements of an output, the bytes of a page.
const MOST_WORDS: usize = 32896;

const MOST_BYTES: usize = 40000;

const MOST_ELEMENTS: usize = 8192;

const MOST_PAGE: usize = 400000;

// The words before a case's lists.
const HEAD_WORDS: usize = 20;

// The program ends, however long its input is.
const MOST_CASES: u32 = 1000000;

// A number of 64 bits is a high word times 2^32 and a low one.
const WORD: u64 = 0x1_0000_0000;

// The largest number of a word: what is told of a larger one.
const MOST_TOLD: usize = 0xFFFF_FFFF;

// Writes an output of bytes: how many there are up to the last that is not the filling, and these.
fn put_bytes(out: &[u8])
    requires { length out.now ≤ 400000 }
{
    let n = filled(out, FILLING_BYTE);
    put_number(n as u32);
    io::write_all(STDOUT_FILENO, &out[..n]);
}

// Writes what planning returns: 0, the layout's number, K, and rows, inner and columns of the blocks; or the refusal's number.
fn put_planned(outcome: Result<Plan, Refusal>) {
    match outcome {
        Ok(plan) => put_words(&[
            0,
            u32::from(plan.layout),
            plan.needed,
            plan.rows,
            plan.inner,
            plan.columns,
        ]),
        Err(refusal) => put_number(refusal.number()),
    }
}

// The job of a case.
fn job_in(c: Case<'_>) -> Job {
    job_of(c.head[1..].first_chunk().unwrap())
}

// Makes a share.
fn run_share(matrix: Matrix, c: Case<'_>, out: &mut [u32]) -> Result<(), Refusal> {
    let job = job_in(c);
    share::share(matrix, job, c.points, c.head[14], c.xs, c.ys, out)
}

// Writes what reading a message returns: 0 and the fields, or the refusal's number.
fn put_read(outcome: Result<Header, Refusal>) {
    match outcome {
        Ok(h) => put_words(&[0, h.kind, h.modulus, h.host, h.rows, h.columns, h.number]),
        Err(refusal) => put_number(refusal.number()),
    }
}

// The signed value of two words, in two's complement.
fn signed_value(high: u32, low: u32) -> i64 {
    (u64::from(high) * WORD + u64::from(low)).cast_signed()
}

// Writes what signed reading returns: 0 and the two words of the value, or the refusal's number.
fn put_signed(outcome: Result<i64, Refusal>) {
    match outcome {
        Ok(value) => {
            let bits = value.cast_unsigned();
            put_words(&[0, (bits / WORD) as u32, (bits % WORD) as u32]);
        }
        Err(refusal) => put_number(refusal.number()),
    }
}

// Writes what the way back returns: 0 and the element, or the refusal's number.
fn put_element(outcome: Result<u32, Refusal>) {
    match outcome {
        Ok(element) => put_words(&[0, element]),
        Err(refusal) => put_number(refusal.number()),
    }
}

// Writes what a drawing returns: 0 and how many words were used, or the refusal's number.
fn put_drawn(outcome: Result<usize, Refusal>) {
    match outcome {
        Ok(used) => put_words(&[0, used.min(MOST_WORDS) as u32]),
        Err(refusal) => put_number(refusal.number()),
    }
}

// Makes a call with an output of elements, and writes what it returns; false where there is no such call.
fn run_call(c: Case<'_>, message: &[u8], out: &mut [u32]) -> bool {
    let head = c.head;
    // Stays: the number of a call is the cases' format, and a table of closures for these calls would be no plainer.
    let call = head[0];
    match call {
        1 => put_outcome(run_share(Matrix::A, c, out)),
        2 => put_outcome(run_share(Matrix::B, c, out)),
        3 => put_outcome(product::product(head[1], head[2], head[3], head[4], c.xs, c.ys, out)),
        5 => put_read(message::read_message(message, out)),
        6 => put_signed(field_signed::signed_reading(head[1], head[2])),
        7 => put_element(field_signed::element_of(head[1], signed_value(head[2], head[3]))),
        8 => put_drawn(masks::draw_masks(head[1], c.xs, out)),
        10 => put_planned(plan::plan_job(job_in(c), c.points)),
        _ => return false,
    }
    true
}

// Answers a case with an output of elements; false where there is no such call or its output is too long.
fn print_call(c: Case<'_>, message: &[u8]) -> bool {
    let count = c.head[19] as usize;
    if MOST_ELEMENTS < count {
        return false;
    }
    let mut out = room::<u32, MOST_ELEMENTS>(test_io::FILLING);
    if !run_call(c, message, &mut out[..count]) {
        return false;
    }
    test_io::put_output(&out[..count]);
    true
}

// Answers a case of a message to write; false where its output is too long.
fn print_write(head: [u32; HEAD_WORDS], xs: &[u32]) -> bool {
    let count = head[19] as usize;
    if MOST_BYTES < count {
        return false;
    }
    let mut out = room::<u8, MOST_BYTES>(FILLING_BYTE);
    let header = Header {
        kind: head[1],
        modulus: head[2],
        host: head[3],
        rows: head[4],
        columns: head[5],
        number: head[6],
    };
    put_outcome(message::write_message(header, xs, &mut out[..count]));
    put_bytes(&out[..count]);
    true
}

// Answers a case of a page to write; false where its output is too long.
fn print_page(head: [u32; HEAD_WORDS], table: &[u32]) -> bool {
    let count = head[19] as usize;
    if MOST_PAGE < count {
        return false;
    }
    let mut out = room::<u8, MOST_PAGE>(FILLING_BYTE);
    let outcome = page::write_page(head[1], head[2], head[3], table, &mut out[..count]);
    put_outcome(outcome);
    put_bytes(&out[..count]);
    true
}

// Answers a case of a host's whole part: 0 or its refusal's number, how many bytes were written, where it is refused the filling,
// and the output. Both messages are lent as one; false where the first is longer than both, or the output is too long.
fn print_answer(head: [u32; HEAD_WORDS], messages: &[u8]) -> bool {
    let first = head[1] as usize;
    let count = head[19] as usize;
    if messages.len() < first || MOST_BYTES < count {
        return false;
    }
    let (a, b) = messages.split_at(first);
    let mut out = room::<u8, MOST_BYTES>(FILLING_BYTE);
    match mukerihe::mukerihe_answer(a, b, &mut out[..count]) {
        Ok(written) => put_words(&[0, written.min(MOST_TOLD) as u32]),
        Err(refusal) => put_words(&[refusal.number(), test_io::FILLING]),
    }
    put_bytes(&out[..count]);
    true
}

// Reads the message of a case and runs it; false where it is over the limits, or the input ends in it.
fn run_message(c: Case<'_>) -> bool {
    let count = c.head[18] as usize;
    let mut message = room::<u8, MOST_BYTES>(0);
    let n = test_io::read_bytes(count, &mut message);
    if n < count {
        return false;
    }
    // Stays: as in `run_call`.
    let call = c.head[0];
    match call {
        4 => print_write(c.head, c.xs),
        9 => print_page(c.head, c.xs),
        11 => print_answer(c.head, &message[..n]),
        _ => print_call(c, &message[..n]),
    }
}

// The case of these words and the lists that they tell the lengths of, one after another; none where the lists are shorter.
fn case_of<'a>(head: [u32; HEAD_WORDS], lists: &'a [u32]) -> Option<Case<'a>> {
    let (points, rest) = lists.split_at_checked(head[15] as usize)?;
    let (xs, rest) = rest.split_at_checked(head[16] as usize)?;
    let (ys, _) = rest.split_at_checked(head[17] as usize)?;
    Some(Case {
        head,
        points,
        xs,
        ys,
    })
}

// Reads the lists of a case and runs it; false where it is over the limits, or the input ends in it.
fn run_case(head: [u32; HEAD_WORDS]) -> bool {
    let mut lists = room::<u32, MOST_WORDS>(0);
    let count = head[15] as usize + head[16] as usize + head[17] as usize;
    let n = test_io::read_words(count, &mut lists);
    match case_of(head, &lists[..n]) {
        Some(c) => run_message(c),
        None => false,
    }
}

// Answers one case after another, until one is over the limits or the input is at its end.
fn main() {
    for _ in 0..MOST_CASES {
        let mut head = [0u32; HEAD_WORDS];
        let n = test_io::read_words(HEAD_WORDS, &mut head);
        if n < HEAD_WORDS {
            return;
        }
        if !run_case(head) {
            return;
        }
    }
}
