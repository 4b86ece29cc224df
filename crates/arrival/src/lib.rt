// Arrivals: a host's answer is taken into the store, and its host counts as heard; or it is in already; or it is refused.
#![tactic(auto)]

ghost use Rattle.std.specs.Prelude.{◌≡◌, not, [], ◌∷◌, ◌+◌, ◌*◌, ◌≤◌, length};
ghost use Rattle.refusal.specs.Chain.{answered};
ghost use Rattle.refusal.specs.Limits.{most_elements};
ghost use Rattle.plan.specs.Planning.{block_rows, block_columns, in_window};
ghost use Rattle.message_header.specs.Header.{header_of, element_count};
ghost use Rattle.message.specs.Format.{elements};
ghost use Rattle.arrival.specs.Arriving.{
  answer_length,
  store_length,
  with_block,
  host_index,
  foreign,
  repeated,
  state_tests,
  answer_tests,
  arrived,
  store_after,
};
ghost use Rattle.arrival.specs.declared.Arrived.TheVariants.{AlreadyIn};
ghost use Rattle.arrival.specs.Internal.{received, store_received};

use message_header::{HEADER_BYTES, Header, Kind};
use plan::Job;
use refusal::Refusal;

// What an arrival returns: the hosts heard after it; or that the message is in already.
#[derive(Clone, Copy, Debug, PartialEq, Eq)]
pub enum Arrived {
    Taken(u64),
    AlreadyIn,
}

// A job that planning accepted, and its answers: rows by columns, with size elements.
#[derive(Clone, Copy)]
struct Accepted {
    job: Job,
    rows: u32,
    columns: u32,
    size: usize,
    ghost rows_are: { rows ≡ block_rows job },
    ghost columns_are: { columns ≡ block_columns job },
    ghost size_is: { size ≡ answer_length job },
    ghost small: { size ≤ most_elements },
    ghost few: { job.hosts ≤ 64 },
}

impl Accepted {
    // Tests 21 and 13: the hosts heard, and the store, which has room for that many elements.
    #[tactic(auto, using(plan::proofs::Tested::tested), unfolding(crate::specs::Arriving::store_length, crate::specs::Arriving::state_tests, refusal::specs::Numbers::refusal_of, refusal::specs::Numbers::sheet))]
    fn check_state(&self, heard: u64, room: usize) -> Result<(), Refusal>
        ensures { result ≡ answered (state_tests self.now.job heard room) tt }
    {
        if arrival_heard::some_above(self.job.hosts, heard) {
            return Err(Refusal::HeardAbove);
        }
        if room != self.job.hosts as usize * self.size {
            return Err(Refusal::Length);
        }
        Ok(())
    }

    // Kind not 3, or job number, modulus, rows or columns not this job's.
    #[tactic(auto, unfolding(crate::specs::Arriving::foreign))]
    fn foreign_test(&self, h: Header) -> bool
        ensures { result ≡ foreign self.now.job h }
    {
        (h.kind != u32::from(Kind::Answer))
            | (h.number != self.job.number)
            | (h.modulus != self.job.modulus)
            | (h.rows != self.rows)
            | (h.columns != self.columns)
    }

    // Tests 22 and 12: a message's fields beside the job.
    #[tactic(auto, using(plan::proofs::Tested::tested), unfolding(crate::specs::Arriving::answer_tests, refusal::specs::Numbers::refusal_of, refusal::specs::Numbers::sheet))]
    fn check_answer(&self, h: Header) -> Result<(), Refusal>
        ensures { result ≡ answered (answer_tests self.now.job h) tt }
    {
        if self.foreign_test(h) {
            return Err(Refusal::Foreign);
        }
        if self.job.hosts < h.host {
            return Err(Refusal::Host);
        }
        Ok(())
    }

    // Takes a message when the plan, the hosts heard and the store have passed: its block is written and its host counts as heard;
    // or it is in already; or it is refused.
    // Stays: what the caller of `arrive` lends is handed on here, once; a struct of it would be no plainer.
    fn take_message(
        &self,
        heard: u64,
        store: &mut [u32],
        message: &[u8],
        minute: u32,
    ) -> Result<Arrived, Refusal>
        requires { length store.old ≡ store_length self.now.job }
        ensures outcome { result ≡ received self.now.job heard store.old message.now minute }
        ensures kept { store.new ≡ store_received self.now.job heard store.old message.now minute }
    {
        let h = message::examine(message)?;
        self.check_answer(h)?;
        if !in_window(self.job, minute) {
            return Err(Refusal::OutsideWindow);
        }
        let index = h.host - 1;
        if arrival_heard::is_heard(heard, index) {
            return heard_again(index as usize, self.size, message, store);
        }
        put_block(index as usize, self.size, message, store);
        let bit = 1u64 << index;
        let after = heard + bit;
        Ok(Arrived::Taken(after))
    }
}

// The minute of an arrival is inside the window: from the opening minute on and up to the one before the closing minute.
#[tactic(auto, unfolding(plan::specs::Planning::in_window))]
fn in_window(job: Job, minute: u32) -> bool
    ensures { result ≡ in_window job minute }
{
    (job.opening <= minute) & (minute < job.closing)
}

// What a message of a host heard already returns: it is in already, where it is what is stored for that host; or 23.
#[tactic(auto, using(plan::proofs::Tested::tested, crate::proofs::Blocks::same_part), unfolding(refusal::specs::Numbers::refusal_of, refusal::specs::Numbers::sheet))]
fn heard_again(index: usize, size: usize, message: &[u8], store: &[u32]) -> Result<Arrived, Refusal>
    requires { index ≡ host_index (header_of message.now)
        × length message.now ≡ 16 + 4 * size
        × index * size + size ≤ length store.now }
    ensures { let other = not (repeated size store.now message.now) in result ≡ answered ((other, 23) ∷ []) AlreadyIn }
{
    let from = index * size;
    let stored = &store[from..from + size];
    if message_bytes::same_bytes(&message[HEADER_BYTES..], stored) {
        return Ok(Arrived::AlreadyIn);
    }
    Err(Refusal::Heard)
}

// Writes the elements of a message over the block of an index.
#[tactic(auto, using(crate::proofs::Blocks::put_part))]
fn put_block(index: usize, size: usize, message: &[u8], store: &mut [u32])
    requires { element_count (header_of message.now) ≡ size
        × length message.now ≡ 16 + 4 * size
        × index * size + size ≤ length store.old }
    ensures { store.new ≡ with_block size store.old index (elements message.now) }
{
    let start = index * size;
    let end = start + size;
    message_bytes::read_elements(&message[HEADER_BYTES..], &mut store[start..end]);
}

// Takes an answer's message at a minute: its elements are written over its host's block of the store, and its host counts as
// heard; or it is in already, or refused by number, and the store stays as it was.
// Stays: the signature is that of the documents, and C's call has it.
pub fn arrive(
    job: Job,
    points: &[u32],
    heard: u64,
    store: &mut [u32],
    message: &[u8],
    minute: u32,
) -> Result<Arrived, Refusal>
    ensures outcome { result ≡ arrived job points.now heard store.old message.now minute }
    ensures kept { store.new
        ≡ store_after job points.now heard store.old message.now minute }
{
    let plan = plan::plan_job(job, points)?;
    let size = (plan.rows * plan.columns) as usize;
    let accepted = Accepted {
        job,
        rows: plan.rows,
        columns: plan.columns,
        size,
    };
    accepted.check_state(heard, store.len())?;
    accepted.take_message(heard, store, message, minute)
}
