// Layouts: the exponents of blocks and masks, the places of the table, the number of answers needed, and a layout's number.
// The numbers of cuts and the group sizes are u8, so that every exponent fits a u32 and nothing has to be refused here.
#![tactic(auto)]

ghost use Rattle.std.specs.Prelude.{◌≡◌, ◌+◌, ◌-◌, ◌*◌, ◌^◌, ◌<◌};
ghost use Rattle.layout.specs.Exponents.{exponents, layout3, number, choice};
ghost use Rattle.layout.specs.Internal.{exponent_by, Follows, Nested};

// How the matrices are cut, m by p and p by n blocks, and the largest groups kept ignorant of A and of B.
#[derive(Clone, Copy)]
pub struct Parameters {
    pub m: u8,
    pub p: u8,
    pub n: u8,
    pub xa: u8,
    pub xb: u8,
}

// The layouts of 01, "Exponents", and the third of 02, U2.
#[derive(Clone, Copy, Debug, PartialEq, Eq)]
pub enum Layout {
    First,
    Second,
    Third,
}

// The exponents that a layout gives: of blocks by row and column, of masks by number, and the places of the table's blocks.
#[derive(Clone, Copy)]
pub enum Series {
    BlocksA,
    MasksA,
    BlocksB,
    MasksB,
    Places,
}

// What a layout's exponents are made of: the strides of A's rows and B's columns of blocks, the first masks' exponents, p, and
// the number of answers needed. They are worked out once a call, by strides_of.
#[derive(Clone, Copy)]
pub struct Strides {
    pub stride_a: u16,
    pub mask_a: u32,
    pub stride_b: u16,
    pub mask_b: u32,
    pub p: u8,
    pub needed: u32,
}

// count times stride, plus rest.
fn strided(count: u8, stride: u16, rest: u32) -> u32
    requires { rest < 2 ^ 25 }
    ensures { result ≡ count * stride + rest }
{
    count as u32 * stride as u32 + rest
}

// The layout whose outer side, taken for A, with the outer masks, strides over all that the inner side has, taken for B.
fn nested(outer: u8, p: u8, inner: u8, outer_masks: u8, inner_masks: u8) -> Strides
    ensures { Nested outer p inner outer_masks inner_masks result }
{
    let blocks = strided(inner, p as u16, 0);
    let stride = strided(inner, p as u16, inner_masks as u32);
    let rows = strided(outer, stride as u16, 0);
    Strides {
        stride_a: stride as u16,
        mask_a: rows.saturating_sub(stride) + blocks,
        stride_b: p as u16,
        mask_b: blocks,
        p,
        needed: (rows + stride + outer_masks as u32).saturating_sub(inner_masks as u32 + 1),
    }
}

// Layout 3: both sides' masks come last, after all places of C.
fn masks_last(g: Parameters) -> Strides
    ensures { Follows result g (layout3 g) }
{
    let stride = strided(g.n, g.p as u16, 0);
    let places = strided(g.m, stride as u16, 0);
    Strides {
        stride_a: stride as u16,
        mask_a: places,
        stride_b: g.p as u16,
        mask_b: places,
        p: g.p,
        needed: (2 * places + g.xa as u32 + g.xb as u32).saturating_sub(1),
    }
}

// The strides of a layout: in layout 1 A is the outer side, in layout 2 B, in layout 3 neither.
pub fn strides_of(layout: Layout, g: Parameters) -> Strides
    ensures { Follows result g (exponents layout g) }
{
    match layout {
        Layout::First => nested(g.m, g.p, g.n, g.xa, g.xb),
        Layout::Second => {
            let s = nested(g.n, g.p, g.m, g.xb, g.xa);
            Strides {
                stride_a: s.stride_b,
                mask_a: s.mask_b,
                stride_b: s.stride_a,
                mask_b: s.mask_a,
                ..s
            }
        }
        Layout::Third => masks_last(g),
    }
}

// K: the number of answers needed.
pub fn needed(layout: Layout, g: Parameters) -> u32
    ensures { result ≡ (exponents layout g).needed }
{
    strides_of(layout, g).needed
}

// The layout with the smallest K, at a tie that of the lower number.
#[tactic(auto, unfolding(crate::specs::Exponents::choice, crate::specs::Exponents::better))]
pub fn choose(g: Parameters) -> Layout
    ensures { result ≡ choice g }
{
    let first = needed(Layout::First, g);
    let second = needed(Layout::Second, g);
    let third = needed(Layout::Third, g);
    if first <= second && first <= third {
        Layout::First
    } else if second <= third {
        Layout::Second
    } else {
        Layout::Third
    }
}

// The exponent or place of a series at row i and column j, both from 0; a mask has a column alone.
#[tactic(auto, unfolding(crate::specs::Internal::exponent_by))]
pub fn exponent_of(series: Series, s: Strides, i: u8, j: u8) -> u32
    ensures { result ≡ exponent_by s series i j }
{
    let last = (s.p as u32).saturating_sub(1);
    match series {
        Series::BlocksA => strided(i, s.stride_a, j as u32),
        Series::MasksA => s.mask_a.wrapping_add(j as u32),
        Series::BlocksB => strided(j, s.stride_b, last.saturating_sub(i as u32)),
        Series::MasksB => s.mask_b.wrapping_add(j as u32),
        Series::Places => strided(i, s.stride_a, strided(j, s.stride_b, last)),
    }
}

// The layout's number on the sheet.
impl From<Layout> for u32 {
    ghost from_gives = { λ l n. n ≡ number l };

    fn from(layout: Layout) -> u32 {
        match layout {
            Layout::First => 1,
            Layout::Second => 2,
            Layout::Third => 3,
        }
    }
}
