// The bank's calls for a C program: planning, drawing masks, sharing, messages, arrivals, decoding, the product on elements, signed
// reading and the page. Each hands its call on to the crate of the call.
#![tactic(auto)]

ghost use Rattle.std.specs.Prelude.{◌≡◌, length};
ghost use Rattle.refusal.specs.Chain.{first, unless_refused, number_in};
ghost use Rattle.field.specs.Modulus.{modulus as modulus_modulus};
ghost use Rattle.field_signed.specs.Signed.{signed, signed_tests, element as signed_element, element_tests};
ghost use Rattle.plan.specs.Planning.{plan_tests, plan_values};
ghost use Rattle.plan.specs.Words.{job_of};
ghost use Rattle.masks.specs.Drawing.{draw_tests, masks_after, used as drawing_used};
ghost use Rattle.share_side.specs.declared.Matrix.TheVariants.{A as Matrix-as-A, B as Matrix-as-B};
ghost use Rattle.share.specs.Sharing.{share_tests, share_after};
ghost use Rattle.product.specs.Product.{product_tests, product_after};
ghost use Rattle.message_header.specs.Header.{header_of as header_header_of, fields as header_fields};
ghost use Rattle.message.specs.Format.{write_tests, written, read_tests, read_into};
ghost use Rattle.arrival.specs.Arriving.{arrival_tests, arrived, store_after, heard_after};
ghost use Rattle.decode.specs.Decoding.{decode_tests, table_after};
ghost use Rattle.page.specs.Page.{page_tests, page_after, room_for};
ghost use Rattle.mukerihe_bank.specs.Bank.{header_of, counted, if_counted, already_after};

use arrival::Arrived;
use message_header::Header;
use plan::{JOB_WORDS, Job};
use refusal::Refusal;
use share::Matrix;

// How many words a message's fields have, and what planning tells.
const FIELD_WORDS: usize = 6;

const PLAN_WORDS: usize = 5;

// What C is told of a call: 0 where it is carried out, and otherwise the number of its refusal.
// Stays: C's interface.
fn number_of(outcome: Result<(), Refusal>) -> u32
    ensures { result ≡ number_in outcome }
{
    match outcome {
        Ok(()) => 0,
        Err(refusal) => refusal.number(),
    }
}

// The job of 13 words.
fn job_of(words: &[u32]) -> Job
    requires { length words.now ≡ 13 }
    ensures { result ≡ job_of words.now }
{
    plan::job_of(words.first_chunk().unwrap())
}

// The header of 6 words.
fn header_of(words: &[u32]) -> Header
    requires { length words.now ≡ 6 }
    ensures { result ≡ header_of words.now }
{
    Header {
        kind: words[0],
        modulus: words[1],
        host: words[2],
        rows: words[3],
        columns: words[4],
        number: words[5],
    }
}

// Plans a job: the 5 values are then the number of its layout, K, and rows, inner and columns of its blocks; or the job is refused
// by number and the values stay as they were.
// Stays: C's interface.
#[unsafe(no_mangle)]
pub extern "C" fn mukerihe_plan(job: &[u32], points: &[u32], values: &mut [u32]) -> u32
    ensures number { let words = job.now in
        result ≡ first (counted 13 words (counted 5 values.old (plan_tests (job_of words) points.now))) }
    ensures values { let words = job.now in let was = values.old in
        let tests = plan_tests (job_of words) points.now in
        values.new ≡ unless_refused (counted 13 words (counted 5 was tests)) (plan_values (job_of words)) was }
{
    if (job.len() != JOB_WORDS) | (values.len() != PLAN_WORDS) {
        return Refusal::Count.number();
    }
    match plan::plan_job(job_of(job), points) {
        Ok(plan) => {
            values.copy_from_slice(&[
                u32::from(plan.layout),
                plan.needed,
                plan.rows,
                plan.inner,
                plan.columns,
            ]);
            0
        }
        Err(refusal) => refusal.number(),
    }
}

// Draws masks from random words: used is then how many were used, or the call is refused by number and used stays as it was.
// Stays: C's interface.
#[unsafe(no_mangle)]
pub extern "C" fn mukerihe_draw(
    modulus: u32,
    words: &[u32],
    out: &mut [u32],
    used: &mut usize,
) -> u32
    ensures number { result ≡ first (draw_tests modulus words.now (length out.old)) }
    ensures masks { out.new ≡ masks_after modulus words.now out.old }
    ensures used { let given = words.now in let n = length out.old in
        let count = drawing_used (modulus_modulus modulus) n given in
        used.new ≡ unless_refused (draw_tests modulus given n) count used.old }
{
    match masks::draw_masks(modulus, words, out) {
        Ok(count) => {
            *used = count;
            0
        }
        Err(refusal) => refusal.number(),
    }
}

// A host's share of a matrix.
// Stays: it tells what C is told, for both calls below.
fn share_of(
    matrix: Matrix,
    job: &[u32],
    points: &[u32],
    host: u32,
    elements: &[u32],
    masks: &[u32],
    out: &mut [u32],
) -> u32
    ensures result_value { let words = job.now in let xs = elements.now in let ms = masks.now in
        let tests = share_tests matrix (job_of words) points.now host xs ms (length out.old) in
        result ≡ first (counted 13 words tests) }
    ensures out_after { let words = job.now in let xs = elements.now in let ms = masks.now in
        let was = out.old in
        out.new ≡ if_counted 13 words (share_after matrix (job_of words) points.now host xs ms was) was }
{
    if job.len() != JOB_WORDS {
        return Refusal::Count.number();
    }
    number_of(share::share(matrix, job_of(job), points, host, elements, masks, out))
}

// A host's share of A.
// Stays: C's interface.
#[unsafe(no_mangle)]
pub extern "C" fn mukerihe_share_a(
    job: &[u32],
    points: &[u32],
    host: u32,
    elements: &[u32],
    masks: &[u32],
    out: &mut [u32],
) -> u32
    ensures number { let words = job.now in let xs = elements.now in let ms = masks.now in
        let tests = share_tests Matrix-as-A (job_of words) points.now host xs ms (length out.old) in
        result ≡ first (counted 13 words tests) }
    ensures block { let words = job.now in let xs = elements.now in let ms = masks.now in
        let was = out.old in
        out.new ≡ if_counted 13 words (share_after Matrix-as-A (job_of words) points.now host xs ms was) was }
{
    share_of(Matrix::A, job, points, host, elements, masks, out)
}

// A host's share of B.
// Stays: C's interface.
#[unsafe(no_mangle)]
pub extern "C" fn mukerihe_share_b(
    job: &[u32],
    points: &[u32],
    host: u32,
    elements: &[u32],
    masks: &[u32],
    out: &mut [u32],
) -> u32
    ensures number { let words = job.now in let xs = elements.now in let ms = masks.now in
        let tests = share_tests Matrix-as-B (job_of words) points.now host xs ms (length out.old) in
        result ≡ first (counted 13 words tests) }
    ensures block { let words = job.now in let xs = elements.now in let ms = masks.now in
        let was = out.old in
        out.new ≡ if_counted 13 words (share_after Matrix-as-B (job_of words) points.now host xs ms was) was }
{
    share_of(Matrix::B, job, points, host, elements, masks, out)
}

// A product on elements: rows by inner times inner by columns.
// Stays: C's interface.
#[unsafe(no_mangle)]
pub extern "C" fn mukerihe_multiply(
    modulus: u32,
    rows: u32,
    inner: u32,
    columns: u32,
    a: &[u32],
    b: &[u32],
    out: &mut [u32],
) -> u32
    ensures number { let left = a.now in let right = b.now in
        result ≡ first (product_tests modulus rows inner columns left right (length out.old)) }
    ensures block { let left = a.now in let right = b.now in
        out.new ≡ product_after modulus rows inner columns left right out.old }
{
    number_of(product::product(modulus, rows, inner, columns, a, b, out))
}

// Writes a message with these 6 fields and elements.
// Stays: C's interface.
#[unsafe(no_mangle)]
pub extern "C" fn mukerihe_write(fields: &[u32], elements: &[u32], out: &mut [u8]) -> u32
    ensures number { let words = fields.now in
        result ≡ first (counted 6 words (write_tests (header_of words) elements.now (length out.old))) }
    ensures bytes { let words = fields.now in let was = out.old in
        out.new ≡ if_counted 6 words (written (header_of words) elements.now was) was }
{
    if fields.len() != FIELD_WORDS {
        return Refusal::Count.number();
    }
    number_of(message::write_message(header_of(fields), elements, out))
}

// Reads a message: its elements, and its 6 fields. It is refused by number, and then both stay as they were.
// Stays: C's interface.
#[unsafe(no_mangle)]
pub extern "C" fn mukerihe_read(message: &[u8], elements: &mut [u32], fields: &mut [u32]) -> u32
    ensures number { let room = length elements.old in
        result ≡ first (counted 6 fields.old (read_tests message.now room)) }
    ensures elements { let was = elements.old in
        elements.new ≡ if_counted 6 fields.old (read_into message.now was) was }
    ensures fields { let bytes = message.now in let was = fields.old in
        fields.new
        ≡ unless_refused (counted 6 was (read_tests bytes (length elements.old))) (header_fields (header_header_of bytes)) was }
{
    if fields.len() != FIELD_WORDS {
        return Refusal::Count.number();
    }
    match message::read_message(message, elements) {
        Ok(h) => {
            fields.copy_from_slice(&[h.kind, h.modulus, h.host, h.rows, h.columns, h.number]);
            0
        }
        Err(refusal) => refusal.number(),
    }
}

// Takes an answer's message at a minute: heard is then the hosts heard after it, and already 1 where it was in before, 0 where it is
// taken. It is refused by number, and then all stays as it was.
// Stays: C's interface.
#[unsafe(no_mangle)]
pub extern "C" fn mukerihe_arrive(
    job: &[u32],
    points: &[u32],
    heard: &mut u64,
    store: &mut [u32],
    message: &[u8],
    minute: u32,
    already: &mut u32,
) -> u32
    ensures number { let words = job.now in let before = heard.old in
        let tests = arrival_tests (job_of words) points.now before store.old message.now minute in
        result ≡ first (counted 13 words tests) }
    ensures heard { let words = job.now in let before = heard.old in
        let outcome = arrived (job_of words) points.now before store.old message.now minute in
        heard.new ≡ if_counted 13 words (heard_after before outcome) before }
    ensures kept { let words = job.now in let held = store.old in
        let after = store_after (job_of words) points.now heard.old held message.now minute in
        store.new ≡ if_counted 13 words after held }
    ensures already { let words = job.now in let before = already.old in
        let outcome = arrived (job_of words) points.now heard.old store.old message.now minute in
        already.new ≡ if_counted 13 words (already_after before outcome) before }
{
    if job.len() != JOB_WORDS {
        return Refusal::Count.number();
    }
    match arrival::arrive(job_of(job), points, *heard, store, message, minute) {
        Ok(Arrived::AlreadyIn) => {
            *already = 1;
            0
        }
        Ok(Arrived::Taken(after)) => {
            *heard = after;
            *already = 0;
            0
        }
        Err(refusal) => refusal.number(),
    }
}

// Decodes the table.
// Stays: C's interface.
#[unsafe(no_mangle)]
pub extern "C" fn mukerihe_decode(
    job: &[u32],
    points: &[u32],
    heard: u64,
    store: &[u32],
    table: &mut [u32],
) -> u32
    ensures number { let words = job.now in let held = store.now in
        result ≡ first (counted 13 words (decode_tests (job_of words) points.now heard held (length table.old))) }
    ensures table { let words = job.now in let held = store.now in let was = table.old in
        table.new ≡ if_counted 13 words (table_after (job_of words) points.now heard held was) was }
{
    if job.len() != JOB_WORDS {
        return Refusal::Count.number();
    }
    number_of(decode::decode(job_of(job), points, heard, store, table))
}

// The signed reading of an element: value is then it, or the call is refused by number and value stays as it was.
// Stays: C's interface.
#[unsafe(no_mangle)]
pub extern "C" fn mukerihe_signed(modulus: u32, element: u32, value: &mut i64) -> u32
    ensures number { result ≡ first (signed_tests modulus element) }
    ensures value { value.new
        ≡ unless_refused (signed_tests modulus element) (signed (modulus_modulus modulus) element) value.old }
{
    match field_signed::signed_reading(modulus, element) {
        Ok(read) => {
            *value = read;
            0
        }
        Err(refusal) => refusal.number(),
    }
}

// The way back: element is then the one whose signed reading is the value, or the call is refused by number and element stays as it
// was.
// Stays: C's interface.
#[unsafe(no_mangle)]
pub extern "C" fn mukerihe_element(modulus: u32, value: i64, element: &mut u32) -> u32
    ensures number { result ≡ first (element_tests modulus value) }
    ensures element { element.new
        ≡ unless_refused (element_tests modulus value) (signed_element (modulus_modulus modulus) value) element.old }
{
    match field_signed::element_of(modulus, value) {
        Ok(found) => {
            *element = found;
            0
        }
        Err(refusal) => refusal.number(),
    }
}

// How many bytes a page has; 0 where a size is out of range.
// Stays: C's interface.
#[unsafe(no_mangle)]
pub extern "C" fn mukerihe_page_length(t: u32, r: u32) -> usize
    ensures { result ≡ room_for t r }
{
    page::page_length(t, r)
}

// Writes a table as a page.
// Stays: C's interface.
#[unsafe(no_mangle)]
pub extern "C" fn mukerihe_page(modulus: u32, t: u32, r: u32, table: &[u32], out: &mut [u8]) -> u32
    ensures number { let room = length out.old in result ≡ first (page_tests modulus t r table.now room) }
    ensures text { out.new ≡ page_after modulus t r table.now out.old }
{
    number_of(page::write_page(modulus, t, r, table, out))
}
