// The header of a message, version 1: its fields, their tests, and its 16 bytes.
#![tactic(auto)]

ghost use Rattle.std.specs.Prelude.{◌≡◌, [], ◌∷◌, length, ◌≤◌};
ghost use Rattle.refusal.specs.Chain.{outside as chain_outside, answered, differs};
ghost use Rattle.message_bytes.specs.Bytes.{number_at};
ghost use Rattle.message_header.specs.Header.{mark, version, header, header_of};
ghost use Rattle.message_header.specs.Internal.{kind_number, kind_of, checked, opened};

use field::Modulus;
use refusal::{Refusal, outside};

// A message's fields: kind is the number of its kind, number is the job number.
// Stays: kind and modulus are numbers, not `Kind` and `Modulus`: a caller may lend any, which `check_fields` refuses with 16 or 1.
#[derive(Clone, Copy, Debug, PartialEq, Eq)]
pub struct Header {
    pub kind: u32,
    pub modulus: u32,
    pub host: u32,
    pub rows: u32,
    pub columns: u32,
    pub number: u32,
}

// The kinds of a message.
#[derive(Clone, Copy, Debug, PartialEq, Eq)]
pub enum Kind {
    AShare,
    BShare,
    Answer,
}

// The number of a kind: 1, 2, 3.
impl From<Kind> for u32 {
    ghost from_gives = { λ kind n. n ≡ kind_number kind };

    // Stays: a table of its own enum; only the shape is that of a layout's.
    fn from(kind: Kind) -> u32 {
        match kind {
            Kind::AShare => 1,
            Kind::BShare => 2,
            Kind::Answer => 3,
        }
    }
}

// The kind of a number; another number is refused.
impl TryFrom<u32> for Kind {
    type Error = Refusal;

    ghost try_from_gives = { λ n outcome. outcome ≡ answered ((chain_outside 1 3 n, 16) ∷ []) (kind_of n) };

    fn try_from(number: u32) -> Result<Self, Refusal> {
        match number {
            1 => Ok(Kind::AShare),
            2 => Ok(Kind::BShare),
            3 => Ok(Kind::Answer),
            0 | 4..=0xFFFF_FFFF => Err(Refusal::Kind),
        }
    }
}

// The first three bytes.
const MARK: [u8; 3] = *b"MDO";

// The next two, as one number.
const VERSION: u16 = 1;

// How many bytes a header has.
pub const HEADER_BYTES: usize = 16;

// The tests of the fields: 16, 1, 12, 2, 6.
pub fn check_fields(h: Header) -> Result<Modulus, Refusal>
    ensures { result ≡ checked h }
{
    Kind::try_from(h.kind)?;
    let modulus = Modulus::try_from(h.modulus)?;
    if outside(1, refusal::MOST_HOSTS, h.host) {
        return Err(Refusal::Host);
    }
    if outside(1, refusal::MOST_SIZE, h.rows) | outside(1, refusal::MOST_SIZE, h.columns) {
        return Err(Refusal::Size);
    }
    if refusal::too_large(h.rows, h.columns) {
        return Err(Refusal::Block);
    }
    Ok(modulus)
}

// Bytes 0 to 15 of a message with these fields.
pub fn header_bytes(h: Header) -> [u8; HEADER_BYTES]
    ensures { result ≡ header h }
{
    let kind = h.kind.to_be_bytes();
    let modulus = h.modulus.to_be_bytes();
    let host = h.host.to_be_bytes();
    let rows = h.rows.to_be_bytes();
    let columns = h.columns.to_be_bytes();
    let number = h.number.to_be_bytes();
    [
        b'M', b'D', b'O', 0, 1, kind[3], modulus[3], host[3], rows[2], rows[3], columns[2],
        columns[3], number[0], number[1], number[2], number[3],
    ]
}

// The fields that a message's bytes tell.
// Stays: three private functions look at a message of 16 bytes or more; a struct that says so would be no plainer.
fn header_fields(message: &[u8]) -> Header
    requires { 16 ≤ length message.now }
    ensures { result ≡ header_of message.now }
{
    Header {
        kind: u32::from(message[5]),
        modulus: u32::from(message[6]),
        host: u32::from(message[7]),
        rows: u32::from(u16::from_be_bytes([message[8], message[9]])),
        columns: u32::from(u16::from_be_bytes([message[10], message[11]])),
        number: u32::from_be_bytes([message[12], message[13], message[14], message[15]]),
    }
}

// The first three bytes are not the mark.
fn mark_test(message: &[u8]) -> bool
    requires { 16 ≤ length message.now }
    ensures { result ≡ differs (number_at message.now 0 3) mark }
{
    !message.starts_with(&MARK)
}

// The version is not 1.
fn version_test(message: &[u8]) -> bool
    requires { 16 ≤ length message.now }
    ensures { result ≡ differs (number_at message.now 3 2) version }
{
    let version = u16::from_be_bytes([message[3], message[4]]);
    match version {
        VERSION => false,
        0 | 2..=0xFFFF => true,
    }
}

// Reads a message's header: its fields and their modulus.
pub fn read_header(message: &[u8]) -> Result<(Header, Modulus), Refusal>
    ensures { result ≡ opened message.now }
{
    if message.len() < HEADER_BYTES {
        return Err(Refusal::Short);
    }
    if mark_test(message) {
        return Err(Refusal::Mark);
    }
    if version_test(message) {
        return Err(Refusal::Version);
    }
    let h = header_fields(message);
    let modulus = check_fields(h)?;
    Ok((h, modulus))
}
