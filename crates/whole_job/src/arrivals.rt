// The answers, taken in the order given, each at its minute.
use crate::hosts::{Desk, Turn};
use crate::lines::{LINES_ROOM, Lines};
use crate::planning::Whole;
use crate::sharing::Shares;
use arrival::Arrived;
use program_lines::{say, say_number};
use refusal::{MOST_HOSTS, Refusal};
use words::room;

// Prints what became of a host's answer: some words and a number.
fn say_answer(host: u32, words: &[u8], number: u32) {
    say_number(b"host ", u64::from(host));
    say_number(words, u64::from(number));
    say(b"\n");
}

// The bank while answers come in: the points and the shares of all hosts, the store of the answers, and the hosts heard.
#[derive(Drop)]
struct Bank<'a, 's> {
    points: &'a [u32],
    shares: Shares<'a>,
    store: &'s mut [u32],
    heard: u64,
}

impl<'a, 's> Bank<'a, 's> {
    // Has a host work on its shares, and lets its answer's message arrive.
    fn take(&mut self, turn: Turn, desk: &mut Desk) -> Result<Arrived, Refusal> {
        let message = turn.work(self.shares, desk)?;
        arrival::arrive(
            turn.job,
            self.points,
            self.heard,
            self.store,
            message,
            turn.minute,
        )
    }

    // Takes a host's answer, unless enough are heard, and prints what became of it.
    fn hear(&mut self, turn: Turn, desk: &mut Desk) {
        let heard = self.heard.count_ones();
        if turn.plan.needed <= heard {
            return say_answer(turn.host, b" late, heard ", turn.plan.needed);
        }
        match self.take(turn, desk) {
            Err(refusal) => say_answer(turn.host, b" refused ", refusal.number()),
            Ok(Arrived::AlreadyIn) => say_answer(turn.host, b" already in, heard ", heard),
            Ok(Arrived::Taken(after)) => {
                self.heard = after;
                say_answer(turn.host, b" taken, heard ", after.count_ones());
            }
        }
    }
}

// Takes answers in the order given, a host and its minute each; prints what becomes of each, and returns the hosts heard.
pub(crate) fn hear_all(whole: &Whole, shares: Shares, store: &mut [u32]) -> u64 {
    let mut desk = Desk::new();
    let mut bank = Bank {
        points: whole.sections.points.numbers,
        shares,
        store,
        heard: 0,
    };
    let (answers, _) = whole.sections.answers.numbers.as_chunks::<2>();
    for &[host, minute] in answers {
        let turn = Turn {
            job: whole.job,
            plan: whole.plan,
            host,
            minute,
        };
        bank.hear(turn, &mut desk);
    }
    bank.heard
}

// Prints the hosts heard.
pub(crate) fn say_heard(heard: u64) {
    let mut bytes = room::<u8, LINES_ROOM>(0);
    let mut lines = Lines::new(&mut bytes);
    for index in 0..MOST_HOSTS {
        if arrival_heard::is_heard(heard, index) {
            lines.add(b" ");
            lines.add_number(index + 1);
        }
    }
    lines.add(b"\n");
    say(b"HEARD");
    lines.print();
}
