// The plan lister: reads a job's ten numbers as a line of text, and gives the text of its plan.
#![tactic(auto)]

ghost use Rattle.std.specs.Prelude.{◌≡◌, ◌∷◌, [], ◌++◌, suc, ◌≤◌, length, drop};
ghost use Rattle.algebra.specs.Lists.{tab, grid};
ghost use Rattle.layout.specs.Internal.{exponent_by};
ghost use Rattle.plan.specs.Planning.{planned, table_job};
ghost use Rattle.refusal.specs.Numbers.{number};
ghost use Rattle.text.specs.Internal.{Writes};
ghost use Rattle.lister.specs.Listing.{
  value,
  values,
  line,
  number_lines,
  plan_text,
  refused_text,
  line_table,
  listing,
};
ghost use Rattle.lister.specs.Internal.{Lists, side_text, places_text};

use layout::{Series, Strides};
use plan::{Plan, Table};
use refusal::Refusal;
use text::Writer;

// The bytes in which every listing has room.
pub const LISTING_ROOM: usize = 4096;

// The most points that a job has.
const MOST_POINTS: usize = refusal::MOST_HOSTS as usize;

// What the line of a side shows: its label, the series of its blocks, so many down and across, and that of its masks.
#[derive(Clone, Copy)]
struct SideLine {
    label: u8,
    blocks: Series,
    grid_rows: u8,
    grid_columns: u8,
    masks: Series,
    mask_count: u8,
}

// Writes a space and the number.
fn put_value(w: &mut Writer, n: u32)
    ensures { Writes w.old (value n) w.new }
{
    w.put(b" ");
    w.put_decimal(n);
}

// Writes a label, one value, and the line's end.
#[tactic(auto, using(text::proofs::Writes::then, crate::proofs::Lines::line_one))]
fn put_line(w: &mut Writer, label: &[u8], n: u32)
    ensures { Writes w.old (line label.now (n ∷ [])) w.new }
{
    w.put(label);
    put_value(w, n);
    w.put(b"\n");
}

// Writes the values of one row of a series.
#[tactic(auto, using(text::proofs::Writes::then, text::proofs::Writes::writes_nothing, crate::proofs::Lines::row_none, crate::proofs::Lines::row_more))]
fn put_row(w: &mut Writer, series: Series, s: Strides, i: u8, columns: u8)
    ensures { Writes w.old (values (tab (exponent_by s series i) columns)) w.new }
{
    for j in 0..columns {
        put_value(w, layout::exponent_of(series, s, i, j));
    }
}

// Writes the values of a series, row by row.
#[tactic(auto, using(text::proofs::Writes::then, text::proofs::Writes::writes_nothing, crate::proofs::Lines::grid_none, crate::proofs::Lines::grid_more))]
fn put_grid(w: &mut Writer, series: Series, s: Strides, rows: u8, columns: u8)
    ensures { Writes w.old (values (grid (exponent_by s series) rows columns)) w.new }
{
    for i in 0..rows {
        put_row(w, series, s, i, columns);
    }
}

// Writes the line of a side: the exponents of its blocks, a bar, and those of its masks.
fn put_side(w: &mut Writer, line: SideLine, s: Strides)
    ensures { Writes w.old (side_text line s) w.new }
{
    w.put(&[line.label]);
    put_grid(w, line.blocks, s, line.grid_rows, line.grid_columns);
    w.put(b" |");
    put_row(w, line.masks, s, 0, line.mask_count);
    w.put(b"\n");
}

// Writes the line of C: the places of its blocks.
fn put_places(w: &mut Writer, s: Strides, rows: u8, columns: u8)
    ensures { Writes w.old (places_text s rows columns) w.new }
{
    w.put(b"C");
    put_grid(w, Series::Places, s, rows, columns);
    w.put(b"\n");
}

// Writes the lines of the prime, the layout, the hosts and the answers needed.
fn put_numbers(w: &mut Writer, hosts: u32, plan: Plan)
    ensures { Writes w.old (number_lines hosts plan) w.new }
{
    put_line(w, b"MODULUS", field::prime_of(plan.modulus));
    put_line(w, b"LAYOUT", u32::from(plan.layout));
    put_line(w, b"HOSTS", hosts);
    put_line(w, b"NEEDED", plan.needed);
}

// Writes the seven lines of a plan to the front of the buffer, and returns their length. Every plan that planning makes has
// room.
pub fn list_plan(hosts: u32, plan: Plan, out: &mut [u8; LISTING_ROOM]) -> usize
    ensures { Lists out.old (plan_text hosts plan) out.new result }
{
    let g = plan.parameters;
    let strides = layout::strides_of(plan.layout, g);
    // Stays: the two sides' lines differ in every field, so no function of one side would be plainer.
    let line_a = SideLine {
        label: b'A',
        blocks: Series::BlocksA,
        grid_rows: g.m,
        grid_columns: g.p,
        masks: Series::MasksA,
        mask_count: g.xa,
    };
    let line_b = SideLine {
        label: b'B',
        blocks: Series::BlocksB,
        grid_rows: g.p,
        grid_columns: g.n,
        masks: Series::MasksB,
        mask_count: g.xb,
    };
    let mut w = Writer { out, at: 0 };
    put_numbers(&mut w, hosts, plan);
    put_side(&mut w, line_a, strides);
    put_side(&mut w, line_b, strides);
    put_places(&mut w, strides, g.m, g.n);
    w.at
}

// Writes the line of a refusal to the front of the buffer, and returns its length.
fn put_refused(out: &mut [u8; LISTING_ROOM], refusal: Refusal) -> usize
    ensures { Lists out.old (refused_text (number refusal)) out.new result }
{
    let mut w = Writer { out, at: 0 };
    put_line(&mut w, b"REFUSED", refusal.number());
    w.at
}

// The table of the ten numbers of a line.
#[tactic(auto, unfolding(crate::specs::Listing::line_table))]
fn line_table(numbers: [u32; 10]) -> Table
    ensures { result ≡ line_table numbers }
{
    let [modulus, t, s, r, m, p, n, xa, xb, hosts] = numbers;
    Table {
        modulus,
        t,
        s,
        r,
        m,
        p,
        n,
        xa,
        xb,
        hosts,
        number: 0,
    }
}

// The points 1 to 64.
fn all_points() -> [u32; MOST_POINTS]
    ensures { result ≡ tab suc 64 }
{
    let mut points = [0u32; MOST_POINTS];
    for (i, point) in points.iter_mut().enumerate() {
        *point = i as u32 + 1;
    }
    points
}

// Plans a table's job with the points 1 to N. No job has more than 64 hosts, so 64 points are enough.
fn plan_of(table: Table) -> Result<Plan, Refusal>
    ensures { result ≡ planned (table_job table) (tab suc table.hosts) }
{
    let points = all_points();
    let hosts = table.hosts.min(refusal::MOST_HOSTS) as usize;
    plan::plan_job(plan::table_job(table), &points[..hosts])
}

// What the lister prints for an input: the text goes to the front of the buffer, which always has room for it, and its length is
// returned.
pub fn list(input: &[u8], out: &mut [u8; LISTING_ROOM]) -> usize
    ensures room { result ≤ length out.new }
    ensures length { result ≡ length (listing input.now) }
    ensures text { let text = listing input.now in out.new ≡ text ++ drop (length text) out.old }
{
    let line = lister_line::read_line(input);
    if !line.ok {
        return put_refused(out, Refusal::Text);
    }
    let table = line_table(line.numbers);
    match plan_of(table) {
        Ok(plan) => list_plan(table.hosts, plan, out),
        Err(refusal) => put_refused(out, refusal),
    }
}
