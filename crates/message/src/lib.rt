// Messages, version 1: writing, looking over, reading.
#![tactic(auto)]

ghost use Rattle.std.specs.Prelude.{◌≡◌, length};
ghost use Rattle.refusal.specs.Chain.{answered};
ghost use Rattle.message.specs.Format.{write_tests, written, examined, read_as, read_into};

use message_header::{HEADER_BYTES, Header};
use refusal::Refusal;

// The tests of writing, where the output has room for that many bytes: those of the fields, 13 and 14.
fn check_write(h: Header, xs: &[u32], room: usize) -> Result<(), Refusal>
    ensures { result ≡ answered (write_tests h xs.now room) tt }
{
    let modulus = message_header::check_fields(h)?;
    let count = (h.rows * h.columns) as usize;
    if (xs.len() != count) | (room != HEADER_BYTES + 4 * count) {
        return Err(Refusal::Length);
    }
    if !field::all_below(modulus, xs) {
        return Err(Refusal::Element);
    }
    Ok(())
}

// Writes a message with these fields and elements: the output then holds it, or it is refused and stays as it was.
pub fn write_message(h: Header, xs: &[u32], out: &mut [u8]) -> Result<(), Refusal>
    ensures number { result ≡ answered (write_tests h xs.now (length out.old)) tt }
    ensures bytes { out.new ≡ written h xs.now out.old }
{
    check_write(h, xs, out.len())?;
    let head = message_header::header_bytes(h);
    message_bytes::copy_bytes(&head, out);
    message_bytes::write_elements(xs, &mut out[HEADER_BYTES..]);
    Ok(())
}

// Looks a message over: its fields.
pub fn examine(message: &[u8]) -> Result<Header, Refusal>
    ensures { result ≡ examined message.now }
{
    let (h, modulus) = message_header::read_header(message)?;
    if message.len() != HEADER_BYTES + 4 * (h.rows * h.columns) as usize {
        return Err(Refusal::MessageLength);
    }
    if !message_bytes::bytes_below(modulus, &message[HEADER_BYTES..]) {
        return Err(Refusal::Element);
    }
    Ok(h)
}

// Reads a message: tells its fields and writes its elements, or is refused and writes nothing.
pub fn read_message(message: &[u8], out: &mut [u32]) -> Result<Header, Refusal>
    ensures outcome { result ≡ read_as message.now (length out.old) }
    ensures elements { out.new ≡ read_into message.now out.old }
{
    if out.len() < refusal::MOST_ELEMENTS {
        return Err(Refusal::Length);
    }
    let h = examine(message)?;
    message_bytes::read_elements(&message[HEADER_BYTES..], out);
    Ok(h)
}
