// Refusals (01, "What is turned down", and 02), with their numbers, and the tests that several calls share.
#![tactic(auto)]

ghost use Rattle.std.specs.Prelude.{◌≡◌, ◌*◌, ltb};
ghost use Rattle.refusal.specs.Chain.{outside as chain_outside};
ghost use Rattle.refusal.specs.Numbers.{number};
ghost use Rattle.refusal.specs.Limits.{most_elements, any_outside, sizes_outside, over_block};

use words::wide_product;

// Why a call is turned down: by a test of 01, "What is turned down", or of 02; or, from `PairKinds` on, by one of the libraries'
// own. The messages of a host's part are not an A share and a B share; a job, fields or the values of a plan are not so many words;
// the two messages differ in modulus, in host or in job number; or A's columns are not B's rows.
#[derive(Clone, Copy, Debug, PartialEq, Eq)]
pub enum Refusal {
    Modulus,
    Size,
    Cuts,
    Groups,
    Division,
    Block,
    Hosts,
    Needed,
    Points,
    Point,
    RepeatedPoint,
    Host,
    Length,
    Element,
    Mask,
    Kind,
    Short,
    Mark,
    Version,
    MessageLength,
    HeardAbove,
    Foreign,
    Heard,
    TooFew,
    Signed,
    Text,
    Words,
    Page,
    Window,
    OutsideWindow,
    PairKinds,
    Count,
    PairModuli,
    PairHosts,
    PairJobs,
    PairSizes,
}

impl Refusal {
    // The number that tells it: 1 to 30 on the sheet, 1001 to 1006 for the libraries' own.
    pub fn number(self) -> u32
        ensures { result ≡ number self }
    {
        match self {
            Refusal::Modulus => 1,
            Refusal::Size => 2,
            Refusal::Cuts => 3,
            Refusal::Groups => 4,
            Refusal::Division => 5,
            Refusal::Block => 6,
            Refusal::Hosts => 7,
            Refusal::Needed => 8,
            Refusal::Points => 9,
            Refusal::Point => 10,
            Refusal::RepeatedPoint => 11,
            Refusal::Host => 12,
            Refusal::Length => 13,
            Refusal::Element => 14,
            Refusal::Mask => 15,
            Refusal::Kind => 16,
            Refusal::Short => 17,
            Refusal::Mark => 18,
            Refusal::Version => 19,
            Refusal::MessageLength => 20,
            Refusal::HeardAbove => 21,
            Refusal::Foreign => 22,
            Refusal::Heard => 23,
            Refusal::TooFew => 24,
            Refusal::Signed => 25,
            Refusal::Text => 26,
            Refusal::Words => 27,
            Refusal::Page => 28,
            Refusal::Window => 29,
            Refusal::OutsideWindow => 30,
            Refusal::PairKinds => 1001,
            Refusal::Count => 1002,
            Refusal::PairModuli => 1003,
            Refusal::PairHosts => 1004,
            Refusal::PairJobs => 1005,
            Refusal::PairSizes => 1006,
        }
    }
}

// The largest numbers that several calls test (01, "The job"): a size, the elements of a block, and the hosts.
pub const MOST_SIZE: u32 = 16384;

pub const MOST_ELEMENTS: usize = 4096;

pub const MOST_HOSTS: u32 = 64;

// n is not in low..high.
pub fn outside(low: u32, high: u32, n: u32) -> bool
    ensures { result ≡ chain_outside low high n }
{
    n < low || high < n
}

// One of three numbers is not 1 to most.
pub fn any_outside(most: u32, x: u32, y: u32, z: u32) -> bool
    ensures { result ≡ any_outside most x y z }
{
    outside(1, most, x) | outside(1, most, y) | outside(1, most, z)
}

// One of three sizes is out of range.
pub fn sizes_outside(x: u32, y: u32, z: u32) -> bool
    ensures { result ≡ sizes_outside x y z }
{
    any_outside(MOST_SIZE, x, y, z)
}

// A block of rows by columns has too many elements.
pub fn too_large(rows: u32, columns: u32) -> bool
    ensures { result ≡ ltb most_elements (rows * columns) }
{
    (MOST_ELEMENTS as u64) < wide_product(rows, columns)
}

// A block of rows by inner, inner by columns or rows by columns has too many elements.
pub fn over_block(rows: u32, inner: u32, columns: u32) -> bool
    ensures { result ≡ over_block rows inner columns }
{
    too_large(rows, inner) | too_large(inner, columns) | too_large(rows, columns)
}
