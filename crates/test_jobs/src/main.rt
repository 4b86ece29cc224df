// Runs whole jobs on many inputs: calls of arrivals and decodings come from standard input, one after another, and what
// they return goes to standard output. Both are those of the separate Rust program, whose docs/src/jobs/format.rs tells their
// format.
#![tactic(auto)]

ghost use Rattle.std.specs.Prelude.{◌≡◌, length};

use arrival::Arrived;
use plan::job_of;
use refusal::Refusal;
use words::room;

// The largest case: its points, the elements of the store and of a table, the bytes of a message.
const MOST_POINTS: usize = 128;

const MOST_STORE: usize = 12288;

const MOST_TABLE: usize = 4096;

const MOST_BYTES: usize = 20000;

// The words before a case's lists.
const HEAD_WORDS: usize = 22;

// The program ends, however long its input is.
const MOST_CASES: u32 = 1000000;

// A case: its words, whose first is the number of its call, and its points.
#[derive(Clone, Copy)]
struct Case<'a> {
    head: [u32; HEAD_WORDS],
    points: &'a [u32],
}

// The hosts heard, of two words.
fn heard_of(high: u32, low: u32) -> u64 {
    high as u64 * 0x1_0000_0000 + low as u64
}

// Writes what an arrival returns: 0 where it is taken, 100 where it is in already, or its refusal's number; and the hosts heard
// after it.
fn put_arrived(outcome: Result<Arrived, Refusal>, before: u64) {
    let (told, heard) = match outcome {
        Ok(Arrived::Taken(after)) => (0, after),
        Ok(Arrived::AlreadyIn) => (100, before),
        Err(refusal) => (refusal.number(), before),
    };
    let high = (heard / 0x1_0000_0000) as u32;
    let low = (heard % 0x1_0000_0000) as u32;
    test_io::put_words(&[told, high, low]);
}

// Reads a message and lets it arrive; false where the input ends in it, or it is too long.
fn run_arrival(c: Case<'_>, store: &mut [u32]) -> bool {
    let head = c.head;
    let count = head[19] as usize;
    let mut message = room::<u8, MOST_BYTES>(0);
    let n = test_io::read_bytes(count, &mut message);
    if n < count {
        return false;
    }
    let job = job_of(head[1..].first_chunk().unwrap());
    let heard = heard_of(head[14], head[15]);
    let outcome = arrival::arrive(job, c.points, heard, store, &message[..n], head[20]);
    put_arrived(outcome, heard);
    true
}

// Decodes a table; false where it is too long.
fn run_decoding(c: Case<'_>, store: &[u32]) -> bool {
    let head = c.head;
    let count = head[21] as usize;
    if MOST_TABLE < count {
        return false;
    }
    let mut table = room::<u32, MOST_TABLE>(test_io::FILLING);
    let heard = heard_of(head[14], head[15]);
    let job = job_of(head[1..].first_chunk().unwrap());
    let outcome = decode::decode(job, c.points, heard, store, &mut table[..count]);
    test_io::put_outcome(outcome);
    test_io::put_output(&table[..count]);
    true
}

// Makes the call of a case on the store; false where there is no such call, or it is over the limits.
fn run_call(c: Case<'_>, store: &mut [u32]) -> bool {
    // Stays: the number of a call is the cases' format, and closures for three calls would be no plainer.
    let call = c.head[0];
    match call {
        1 => run_arrival(c, store),
        2 => run_decoding(c, store),
        3 => {
            test_io::put_words(store);
            true
        }
        _ => false,
    }
}

// Reads the store's elements where they are to be replaced; false where the input ends in them.
fn renew_store(renewed: u32, store: &mut [u32]) -> bool {
    if renewed != 1 {
        return true;
    }
    let count = store.len();
    test_io::read_words(count, store) == count
}

// Makes the call of a case on its store; false where the input ends in it, or it is over the limits.
fn run_store(c: Case<'_>, store: &mut [u32]) -> bool {
    if !renew_store(c.head[18], store) {
        return false;
    }
    run_call(c, store)
}

// Reads the points of a case and makes its call on the front of the store; false where the input ends in it, or it is over the
// limits.
fn run_case(head: [u32; HEAD_WORDS], store: &mut [u32]) -> bool {
    let mut points = [0u32; MOST_POINTS];
    let count = head[16] as usize;
    let size = head[17] as usize;
    let p = test_io::read_words(count, &mut points);
    if p < count || store.len() < size {
        return false;
    }
    let c = Case {
        head,
        points: &points[..p],
    };
    run_store(c, &mut store[..size])
}

// Answers one case after another, until one is over the limits or the input is at its end.
fn run_cases(store: &mut [u32]) {
    for _ in 0..MOST_CASES {
        let mut head = [0u32; HEAD_WORDS];
        let n = test_io::read_words(HEAD_WORDS, &mut head);
        if n < HEAD_WORDS {
            return;
        }
        if !run_case(head, store) {
            return;
        }
    }
}

fn main() {
    let mut store = [0u32; MOST_STORE];
    run_cases(&mut store);
}
