// The hosts' work: both shares as messages, their product, and the answer's message.
ghost use Rattle.std.specs.Prelude.{◌≤◌};

use crate::blocks::{answer_size, block_at, block_size};
use crate::sharing::Shares;
use message_header::{HEADER_BYTES, Header, Kind};
use plan::{Job, Plan};
use refusal::{MOST_ELEMENTS, Refusal};
use share::Matrix;
use words::room;

// The most bytes that a message has.
const MOST_MESSAGE: usize = HEADER_BYTES + 4 * MOST_ELEMENTS;

// The turn of a host: the job and its plan, the host's number, and the minute of its answer.
#[derive(Clone, Copy)]
pub(crate) struct Turn {
    pub(crate) job: Job,
    pub(crate) plan: Plan,
    pub(crate) host: u32,
    pub(crate) minute: u32,
}

// What a host works with: room for both its shares, their product, and a message.
#[derive(Drop)]
pub(crate) struct Desk {
    a: [u32; MOST_ELEMENTS],
    b: [u32; MOST_ELEMENTS],
    product: [u32; MOST_ELEMENTS],
    message: [u8; MOST_MESSAGE],
}

impl Desk {
    // A desk with nothing on it.
    pub(crate) fn new() -> Desk {
        Desk {
            a: room(0),
            b: room(0),
            product: room(0),
            message: room(0),
        }
    }
}

// How many bytes the message of so many elements has.
fn message_size(elements: usize) -> usize
    ensures { result ≤ 16400 }
{
    HEADER_BYTES + 4 * elements.min(MOST_ELEMENTS)
}

// Sends a block: writes its message, and reads it at the other end.
fn send(
    h: Header,
    xs: &[u32],
    message: &mut [u8; MOST_MESSAGE],
    out: &mut [u32],
) -> Result<(), Refusal> {
    let n = message_size(xs.len());
    message::write_message(h, xs, &mut message[..n])?;
    message::read_message(&message[..n], out)?;
    Ok(())
}

impl Turn {
    // The fields of a message to or from the host.
    fn header(self, kind: Kind, rows: u32, columns: u32) -> Header {
        Header {
            kind: u32::from(kind),
            modulus: self.job.modulus,
            host: self.host,
            rows,
            columns,
            number: self.job.number,
        }
    }

    // The share of a matrix that the host gets; refused where it is no host of the job.
    fn share<'a>(self, matrix: Matrix, shares: Shares<'a>) -> Result<&'a [u32], Refusal> {
        if self.host == 0 || self.job.hosts < self.host {
            return Err(Refusal::Host);
        }
        let all = match matrix {
            Matrix::A => shares.a,
            Matrix::B => shares.b,
        };
        let size = block_size(matrix, self.plan);
        all.get(block_at(size, self.host - 1))
            .ok_or(Refusal::Length)
    }

    // Sends the host both its shares.
    fn send_shares(self, shares: Shares, desk: &mut Desk) -> Result<(), Refusal> {
        let plan = self.plan;
        let a = self.share(Matrix::A, shares)?;
        let b = self.share(Matrix::B, shares)?;
        let head_a = self.header(Kind::AShare, plan.rows, plan.inner);
        let head_b = self.header(Kind::BShare, plan.inner, plan.columns);
        send(head_a, a, &mut desk.message, &mut desk.a)?;
        send(head_b, b, &mut desk.message, &mut desk.b)
    }

    // What the host does: gets both shares as messages, multiplies them, and writes its answer's message, which is lent.
    pub(crate) fn work<'d>(self, shares: Shares, desk: &'d mut Desk) -> Result<&'d [u8], Refusal> {
        self.send_shares(shares, desk)?;
        let plan = self.plan;
        let size = answer_size(plan);
        let Desk {
            a,
            b,
            product,
            message,
        } = desk;
        let product = &mut product[..size];
        product::product(
            self.job.modulus,
            plan.rows,
            plan.inner,
            plan.columns,
            &a[..block_size(Matrix::A, plan)],
            &b[..block_size(Matrix::B, plan)],
            product,
        )?;
        let message = &mut message[..message_size(size)];
        let head = self.header(Kind::Answer, plan.rows, plan.columns);
        message::write_message(head, product, message)?;
        Ok(message)
    }
}
