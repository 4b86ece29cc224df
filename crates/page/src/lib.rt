// The kinship page (02, U6): a table as lines of text. `specs/Page.antt` tells how.
#![tactic(auto)]

ghost use Rattle.std.specs.Prelude.{◌≡◌, ◌||◌, [], ◌+◌, ◌*◌, ◌<◌, ◌≤◌, length};
ghost use Rattle.algebra.specs.Lists.{tab};
ghost use Rattle.refusal.specs.Chain.{answered, outside};
ghost use Rattle.field.specs.Modulus.{prime};
ghost use Rattle.text.specs.Decimal.{decimal};
ghost use Rattle.text.specs.Internal.{Writes};
ghost use Rattle.page.specs.Page.{cell, panels, across, heading, panel, gap, page, page_length, room_for, page_tests, page_after};
ghost use Rattle.page.specs.Internal.{line_of, table_tests};

use field::Modulus;
use refusal::{MOST_SIZE, Refusal};
use text::Writer;

// The byte of a space.
const SPACE: u8 = b' ';

// How many columns a row number has, and an element or a column number.
const LABEL: usize = 5;

const CELL: usize = 11;

// The first number of more than five digits, and the columns before the last five of a cell.
const LARGE: u32 = 100000;

const FRONT: usize = 6;

// The most elements of a line.
const MOST_ACROSS: usize = 6;

// Fills some columns with a number that has room in them.
fn fill_short(out: &mut [u8], n: u32)
    requires { length (decimal n) ≤ length out.old }
    ensures { out.new ≡ cell (length out.old) n }
{
    text::fill(out, SPACE);
    text::put_digits(out, n);
}

// Fills the 11 columns of an element or a column number. Its last five digits are written apart from those before them: where the
// compiler knows how few places there are, it needs no loop.
fn fill_long(out: &mut [u8], n: u32)
    requires { length out.old ≡ 11 }
    ensures { out.new ≡ cell 11 n }
{
    let (front, back) = out.split_at_mut(FRONT);
    if n < LARGE {
        text::fill(front, SPACE);
        fill_short(back, n);
    } else {
        fill_short(front, n / LARGE);
        text::put_last_digits(back, n);
    }
}

// Fills a cell with a number that has room in it.
fn fill_cell(out: &mut [u8], n: u32)
    requires { length (decimal n) ≤ length out.old }
    ensures { out.new ≡ cell (length out.old) n }
{
    if out.len() == CELL {
        fill_long(out, n);
    } else {
        fill_short(out, n);
    }
}

// Writes a number, right-aligned in so many columns.
#[tactic(auto, using(crate::proofs::Lengths::length_cell, text::proofs::Decimals::decimal_some))]
fn put_cell(w: &mut Writer, width: usize, n: u32)
    requires { length (decimal n) ≤ width }
    ensures { Writes w.old (cell width n) w.new }
{
    let at = w.at;
    let mut end = at;
    if at <= w.out.len() && width <= w.out.len() - at {
        end = at + width;
        fill_cell(&mut w.out[at..end], n);
    }
    w.at = end;
}

// Writes the numbers of a line, and its end.
#[tactic(auto, using(text::proofs::Writes::then, text::proofs::Writes::writes_nothing, crate::proofs::Lengths::number_fits), unfolding(algebra::specs::Lists::stack, crate::specs::Page::line, crate::specs::Internal::line_of))]
fn put_numbers(w: &mut Writer, numbers: &[u32])
    ensures { Writes w.old (line_of [] numbers.now) w.new }
{
    for number in numbers {
        put_cell(w, CELL, *number);
    }
    w.put(b"\n");
}

// The numbers of six columns, from a panel's first on.
#[tactic(auto, unfolding(algebra::specs::Lists::tab))]
fn six_columns(p: usize) -> [u32; MOST_ACROSS]
    requires { p ≤ 16384 }
    ensures { result ≡ tab (λ c. p * 6 + c + 1) 6 }
{
    let first = (p * MOST_ACROSS) as u32 + 1;
    [first, first + 1, first + 2, first + 3, first + 4, first + 5]
}

// Writes a line: a row number and elements.
#[tactic(auto, using(text::proofs::Writes::then, text::proofs::Decimals::decimal_short), unfolding(crate::specs::Page::line, crate::specs::Internal::line_of))]
fn put_row(w: &mut Writer, number: u32, elements: &[u32])
    requires { number < 100000 }
    ensures { Writes w.old (line_of (cell 5 number) elements.now) w.new }
{
    put_cell(w, LABEL, number);
    put_numbers(w, elements);
}

// Writes what stands before a panel.
#[tactic(auto, using(text::proofs::Writes::writes_nothing, crate::proofs::Lines::gap_later), unfolding(crate::specs::Page::gap))]
fn put_gap(w: &mut Writer, p: usize)
    ensures { Writes w.old (gap p) w.new }
{
    if p != 0 {
        w.put(b"\n")
    }
}

// How many panels a table has.
#[tactic(auto, unfolding(crate::specs::Page::panels))]
fn panel_count(r: usize) -> usize
    requires { r ≤ 16384 }
    ensures { result ≡ panels r }
{
    (r + 5) / MOST_ACROSS
}

// One of the two sizes is out of range.
fn size_test(t: u32, r: u32) -> bool
    ensures { result ≡ (outside 1 16384 t || outside 1 16384 r) }
{
    refusal::outside(1, MOST_SIZE, t) | refusal::outside(1, MOST_SIZE, r)
}

// How many bytes a page has.
#[tactic(auto, unfolding(crate::specs::Page::panels, crate::specs::Page::page_length))]
fn length_of(t: usize, r: usize) -> usize
    requires { t ≤ 16384 × 1 ≤ r × r ≤ 16384 }
    ensures { result ≡ page_length t r }
{
    let count = panel_count(r);
    (t + 1) * (MOST_ACROSS * count + CELL * r) + (count - 1)
}

// How many bytes the output of a page must have; 0 where a size is out of range.
#[tactic(auto, unfolding(crate::specs::Page::room_for))]
pub fn page_length(t: u32, r: u32) -> usize
    ensures { result ≡ room_for t r }
{
    if size_test(t, r) {
        return 0;
    }
    length_of(t as usize, r as usize)
}

// A table within the limits, row by row.
#[derive(Clone, Copy)]
struct Table<'a> {
    rows: usize,
    columns: usize,
    elements: &'a [u32],
    ghost tall: { rows ≤ 16384 },
    ghost wide: { columns ≤ 16384 },
    ghost whole: { length elements.now ≡ rows * columns },
}

impl Table<'_> {
    // How many columns stand in a panel.
    // Stays: the fact is of the index that is asked for, and not of the table.
    #[tactic(auto, unfolding(crate::specs::Page::panels, crate::specs::Page::across))]
    fn panel_width(&self, p: usize) -> usize
        requires { p < panels self.now.columns }
        ensures { result ≡ across self.now.columns p }
    {
        (self.columns - p * MOST_ACROSS).min(MOST_ACROSS)
    }

    // Writes the heading of a panel.
    #[tactic(auto, unfolding(crate::specs::Page::panels))]
    fn put_heading(&self, w: &mut Writer, p: usize)
        requires { p < panels self.now.columns }
        ensures { Writes w.old (heading self.now.columns p) w.new }
    {
        let columns = six_columns(p);
        let count = self.panel_width(p);
        w.put(b"     ");
        put_numbers(w, &columns[..count]);
    }

    // Writes a panel.
    #[tactic(auto, using(text::proofs::Writes::then, text::proofs::Writes::writes_nothing), unfolding(algebra::specs::Lists::stack, crate::specs::Page::panels, crate::specs::Page::panel))]
    fn put_panel(&self, w: &mut Writer, p: usize)
        requires { p < panels self.now.columns }
        ensures { let t = self.now in
            Writes w.old (panel t.rows t.columns t.elements.now p) w.new }
    {
        let left = p * MOST_ACROSS;
        let count = self.panel_width(p);
        let elements = self.elements;
        self.put_heading(w, p);
        for i in 0..self.rows {
            let start = i * self.columns + left;
            let end = start + count;
            put_row(w, i as u32 + 1, &elements[start..end]);
        }
    }

    // Writes the page.
    #[tactic(auto, using(text::proofs::Writes::writes_nothing), unfolding(algebra::specs::Lists::stack, crate::specs::Page::page))]
    fn put_page(&self, w: &mut Writer)
        ensures { let t = self.now in
            Writes w.old (page t.rows t.columns t.elements.now) w.new }
    {
        for p in 0..panel_count(self.columns) {
            put_gap(w, p);
            self.put_panel(w, p);
        }
    }
}

// The tests of a page at a modulus: 2, 13, 28 and 14.
#[tactic(auto, unfolding(crate::specs::Internal::table_tests, refusal::specs::Chain::answered, refusal::specs::Chain::outcome, refusal::specs::Chain::first, refusal::specs::Numbers::refusal_of, refusal::specs::Numbers::sheet))]
fn check_table(modulus: Modulus, t: u32, r: u32, table: &[u32], room: usize) -> Result<(), Refusal>
    ensures { result ≡ answered (table_tests (prime modulus) t r table.now room) tt }
{
    if size_test(t, r) {
        return Err(Refusal::Size);
    }
    let rows = t as usize;
    let columns = r as usize;
    if table.len() != rows * columns {
        return Err(Refusal::Length);
    }
    if room != length_of(rows, columns) {
        return Err(Refusal::Page);
    }
    if !field::all_below(modulus, table) {
        return Err(Refusal::Element);
    }
    Ok(())
}

// Writes a table of t rows and r columns as a page: the output then holds it, or the call is refused and the output stays as it
// was.
pub fn write_page(
    modulus: u32,
    t: u32,
    r: u32,
    table: &[u32],
    out: &mut [u8],
) -> Result<(), Refusal>
    ensures number { let room = length out.old in
        result ≡ answered (page_tests modulus t r table.now room) tt }
    ensures text { out.new ≡ page_after modulus t r table.now out.old }
{
    let named = Modulus::try_from(modulus)?;
    check_table(named, t, r, table, out.len())?;
    let whole = Table {
        rows: t as usize,
        columns: r as usize,
        elements: table,
    };
    let mut w = Writer { out, at: 0 };
    whole.put_page(&mut w);
    Ok(())
}
