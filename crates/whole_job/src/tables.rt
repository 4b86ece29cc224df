// The table, decoded and printed: its rows, and its kinship page.
ghost use Rattle.std.specs.Prelude.{◌≡◌, length};

use crate::blocks::{ELEMENT_ROOM, area};
use crate::lines::{LINES_ROOM, Lines};
use crate::planning::Whole;
use plan::Job;
use program_lines::{say, say_front};
use refusal::Refusal;
use words::room;

// The most bytes of the kinship page of a table: that of 2 by 16384.
const PAGE_ROOM: usize = 592560;

// Writes a number, with its sign where it is below 0; its size is that of an element.
fn put_signed(lines: &mut Lines, x: i64)
    ensures { length lines.new.w.out.now ≡ length lines.old.w.out.now }
{
    if x < 0 {
        lines.add(b"-");
    }
    lines.add_number(u32::try_from(x.unsigned_abs()).unwrap_or(0));
}

// Writes a row of a table: what is read from each element.
fn put_row<F: Fn(u32) -> Result<i64, Refusal>>(
    lines: &mut Lines,
    row: &[u32],
    read: &F,
) -> Result<(), Refusal>
    requires { F.IsAlwaysCallable read.now }
{
    for (j, v) in row.iter().enumerate() {
        if j != 0 {
            lines.add(b"\t");
        }
        lines.flush();
        put_signed(lines, read(*v)?);
    }
    lines.add(b"\n");
    Ok(())
}

// Prints the rows of a table: what is read from each element.
fn say_rows<F: Fn(u32) -> Result<i64, Refusal>>(
    columns: u32,
    table: &[u32],
    read: F,
) -> Result<(), Refusal>
    requires { F.IsAlwaysCallable read }
{
    let mut bytes = room::<u8, LINES_ROOM>(0);
    let mut lines = Lines::new(&mut bytes);
    for row in table.chunks(columns.max(1) as usize) {
        put_row(&mut lines, row, &read)?;
    }
    lines.print();
    Ok(())
}

// Prints the kinship page of the table.
fn say_page(job: Job, table: &[u32]) -> Result<(), Refusal> {
    let mut page = room::<u8, PAGE_ROOM>(0);
    let n = page::page_length(job.t, job.r).min(PAGE_ROOM);
    page::write_page(job.modulus, job.t, job.r, table, &mut page[..n])?;
    say(b"PAGE\n");
    say_front(&page, n);
    Ok(())
}

// Decodes the table and prints it, its signed reading and its kinship page.
pub(crate) fn say_table(whole: &Whole, heard: u64, store: &[u32]) -> Result<(), Refusal> {
    let job = whole.job;
    let points = whole.sections.points.numbers;
    let n = area(job.t, job.r).min(ELEMENT_ROOM);
    let mut elements = room::<u32, ELEMENT_ROOM>(0);
    let table = &mut elements[..n];
    decode::decode(job, points, heard, store, table)?;
    say(b"TABLE\n");
    say_rows(job.r, table, |v| Ok(i64::from(v)))?;
    say(b"SIGNED READING\n");
    say_rows(job.r, table, |v| {
        field_signed::signed_reading(job.modulus, v)
    })?;
    say_page(job, table)
}
