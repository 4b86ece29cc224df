// Every group: the sheet's lister job, of 20 hosts with 17 needed, is decoded from each of its 1,140 groups of 17, in three
// orders of arrival, every answer sent twice and a third time with another element, under three sets of masks. Prints one line
// with the counts.
#![tactic(auto)]

ghost use Rattle.std.specs.Prelude.{◌≡◌, ◌<◌, ◌≤◌, length};

use arrival::Arrived;
use message_header::{Header, Kind};
use plan::Job;
use refusal::Refusal;
use share::Matrix;
use text::Writer;

// The file descriptor of standard output.
const STDOUT_FILENO: i32 = 1;

// The hosts, and how many answers are needed.
const HOSTS: usize = 20;

const NEEDED: u32 = 17;

// The sets of hosts, as numbers with a bit for each host.
const SETS: u64 = 1048576;

// An answer's message, and those of all hosts.
const MESSAGE: usize = 32;

const MESSAGES: usize = 640;

// The elements of the matrices, of a block, of the masks of a matrix, and of the store.
const ELEMENTS: usize = 16;

const BLOCK: usize = 4;

const MASKS: usize = 8;

const STORE: usize = 80;

// The prime of the job.
const PRIME: u32 = 257;

// The minute of every arrival.
const MINUTE: u32 = 59;

// The job of the sheet's lister line, with a window that has this minute alone.
fn job() -> Job {
    Job {
        modulus: 2,
        t: 4,
        s: 4,
        r: 4,
        m: 2,
        p: 2,
        n: 2,
        xa: 2,
        xb: 2,
        hosts: 20,
        number: 1140,
        opening: MINUTE,
        closing: MINUTE + 1,
    }
}

// Fills a list with elements that follow from a seed.
fn fill(seed: u32, out: &mut [u32])
    requires { seed ≤ 256 }
    ensures { length out.new ≡ length out.old }
{
    let mut x = seed;
    for element in out.iter_mut() {
        x = (x * 75 + 74) % PRIME;
        *element = x;
    }
}

// The points 3, 10, 17 and so on, as many as there is room for.
fn set_points(out: &mut [u32])
    requires { length out.old ≤ 20 }
{
    for (i, point) in out.iter_mut().enumerate() {
        *point = 3 + 7 * i as u32;
    }
}

// The fields of a host's answer.
fn header_of(host: u32) -> Header {
    Header {
        kind: u32::from(Kind::Answer),
        modulus: 2,
        host,
        rows: 2,
        columns: 2,
        number: 1140,
    }
}

// Multiplies two shares and writes the answer's message.
fn multiply(host: u32, a: &[u32], b: &[u32], message: &mut [u8]) -> Result<(), Refusal> {
    let mut product = [0u32; BLOCK];
    product::product(2, 2, 2, 2, a, b, &mut product)?;
    message::write_message(header_of(host), &product, message)
}

// The matrices, and the masks of both.
#[derive(Clone, Copy)]
struct Secrets<'a> {
    a: &'a [u32],
    b: &'a [u32],
    masks_a: &'a [u32],
    masks_b: &'a [u32],
}

// Writes the answer's message of a host to the front of a buffer.
fn answer(host: u32, points: &[u32], s: Secrets<'_>, message: &mut [u8]) -> Result<(), Refusal> {
    let mut left = [0u32; BLOCK];
    let mut right = [0u32; BLOCK];
    share::share(Matrix::A, job(), points, host, s.a, s.masks_a, &mut left)?;
    share::share(Matrix::B, job(), points, host, s.b, s.masks_b, &mut right)?;
    multiply(host, &left, &right, message)
}

// The answers' messages of all hosts, one after another.
fn answer_all(points: &[u32], s: Secrets<'_>) -> Result<[u8; MESSAGES], Refusal> {
    let mut messages = [0u8; MESSAGES];
    for index in 0..HOSTS {
        let start = index * MESSAGE;
        let end = start + MESSAGE;
        answer(index as u32 + 1, points, s, &mut messages[start..end])?;
    }
    Ok(messages)
}

// Another byte, 0 or 1.
fn other_byte(byte: u8) -> u8 {
    if byte == 0 { 1 } else { 0 }
}

// A message of a host that is heard, the same as its first, is in already.
fn is_in_already(points: &[u32], heard: u64, store: &mut [u32], message: &[u8]) -> bool {
    let outcome = arrival::arrive(job(), points, heard, store, message, MINUTE);
    matches!(outcome, Ok(Arrived::AlreadyIn))
}

// A message of a host that is heard, with another last element than its first, is refused with 23.
fn is_refused(points: &[u32], heard: u64, store: &mut [u32], message: &[u8]) -> bool {
    let mut other = [0u8; MESSAGE];
    message_bytes::copy_bytes(message, &mut other);
    other[30] = 0;
    other[31] = other_byte(other[31]);
    let outcome = arrival::arrive(job(), points, heard, store, &other, MINUTE);
    matches!(outcome, Err(Refusal::Heard))
}

// Lets a message arrive twice, and then with another element: it must be taken, in already, and refused. Tells the hosts heard
// then, or none.
fn arrive_thrice(points: &[u32], heard: u64, store: &mut [u32], message: &[u8]) -> u64 {
    match arrival::arrive(job(), points, heard, store, message, MINUTE) {
        Ok(Arrived::Taken(after))
            if is_in_already(points, after, store, message)
                && is_refused(points, after, store, message) => { after }
        _ => 0,
    }
}

// What a table is decoded with: the points, the messages of all hosts, and the table that is expected.
#[derive(Clone, Copy)]
struct Trial<'a> {
    points: &'a [u32],
    messages: &'a [u8; MESSAGES],
    expected: &'a [u32],
}

// An order of arrival: from the host at an index on, and so many hosts further each time.
#[derive(Clone, Copy)]
struct Order {
    from: usize,
    step: usize,
    ghost inside: { from < 20 × step < 20 },
}

// Lets the message of the host at an index arrive where the host is in the set; tells the hosts heard then.
fn hear(t: Trial<'_>, set: u64, index: usize, heard: u64, store: &mut [u32]) -> u64
    requires { index < 20 }
{
    if !arrival_heard::is_heard(set, index as u32) {
        return heard;
    }
    let start = index * MESSAGE;
    let end = start + MESSAGE;
    let messages = t.messages;
    arrive_thrice(t.points, heard, store, &messages[start..end])
}

// Lets the messages of a set of hosts arrive, in an order; tells the hosts heard.
fn hear_set(t: Trial<'_>, set: u64, order: Order, store: &mut [u32]) -> u64 {
    let mut heard = 0;
    let mut index = order.from;
    for _ in 0..HOSTS {
        heard = hear(t, set, index, heard, store);
        index = (index + order.step) % HOSTS;
    }
    heard
}

// The table decoded from a set of hosts is the expected one.
fn is_right(t: Trial<'_>, set: u64, order: Order) -> bool {
    let mut store = [0u32; STORE];
    let mut table = [0u32; ELEMENTS];
    let heard = hear_set(t, set, order, &mut store);
    if heard != set {
        return false;
    }
    let outcome = decode::decode(job(), t.points, heard, &store, &mut table);
    outcome.is_ok() && table.as_slice() == t.expected
}

// How many of the sets of 17 hosts give the expected table, in one order.
fn count_right(t: Trial<'_>, order: Order) -> u32 {
    let mut right = 0u32;
    for set in 0..SETS {
        if set.count_ones() == NEEDED && is_right(t, set, order) {
            right = right.wrapping_add(1);
        }
    }
    right
}

// How many sets of 17 hosts there are.
fn count_groups() -> u32 {
    let mut groups = 0u32;
    for set in 0..SETS {
        if set.count_ones() == NEEDED {
            groups = groups.wrapping_add(1);
        }
    }
    groups
}

// How many tables are right in three orders: hosts from 1 up, from 20 down, and from 8 on with six left out each time.
fn count_orders(t: Trial<'_>) -> u32 {
    let up = count_right(t, Order { from: 0, step: 1 });
    let down = count_right(t, Order { from: 19, step: 19 });
    let mixed = count_right(t, Order { from: 7, step: 7 });
    up.wrapping_add(down).wrapping_add(mixed)
}

// How many tables are right under the masks of a seed.
fn count_masks(seed: u32, points: &[u32], a: &[u32], b: &[u32], expected: &[u32]) -> u32
    requires { seed ≤ 255 }
{
    let mut masks_a = [0u32; MASKS];
    let mut masks_b = [0u32; MASKS];
    fill(seed, &mut masks_a);
    fill(seed + 1, &mut masks_b);
    let secrets = Secrets {
        a,
        b,
        masks_a: &masks_a,
        masks_b: &masks_b,
    };
    match answer_all(points, secrets) {
        Ok(messages) => count_orders(Trial {
            points,
            messages: &messages,
            expected,
        }),
        Err(_) => 0,
    }
}

// How many tables are right under three sets of masks.
fn count_all(points: &[u32], a: &[u32], b: &[u32], expected: &[u32]) -> u32 {
    let first = count_masks(0, points, a, b, expected);
    let second = count_masks(100, points, a, b, expected);
    let third = count_masks(255, points, a, b, expected);
    first.wrapping_add(second).wrapping_add(third)
}

// Prints some words and a number.
fn say(words: &[u8], n: u32) {
    let mut out = io::buffer();
    let mut w = Writer {
        out: &mut out,
        at: 0,
    };
    w.put(words);
    w.put_decimal(n);
    let end = w.at;
    io::write_all(STDOUT_FILENO, &w.out[..end]);
}

// Multiplies, counts, and prints. Where the product is refused, no table is right.
fn main() {
    let mut points = [0u32; HOSTS];
    let mut a = [0u32; ELEMENTS];
    let mut b = [0u32; ELEMENTS];
    let mut expected = [0u32; ELEMENTS];
    set_points(&mut points);
    fill(11, &mut a);
    fill(200, &mut b);
    let right = match product::product(2, 4, 4, 4, &a, &b, &mut expected) {
        Ok(()) => count_all(&points, &a, &b, &expected),
        Err(_) => 0,
    };
    say(b"groups: ", count_groups());
    say(b"; orders: 3; masks: 3; tables decoded and right: ", right);
    io::write_all(STDOUT_FILENO, b"\n");
}
