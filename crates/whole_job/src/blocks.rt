// The sizes of blocks, and where the blocks of all hosts stand.
ghost use Rattle.std.specs.Prelude.{◌≤◌};
ghost use Rattle.refusal.specs.Limits.{most_elements};

use plan::Plan;
use refusal::MOST_ELEMENTS;
use share::Matrix;
use std::ops::Range;

// The most elements of a table, and of the blocks of one kind for all hosts. A text has no more numbers: a byte stands between
// two, and it has fewer than twice as many bytes.
pub(crate) const ELEMENT_ROOM: usize = 32768;

// How many elements a matrix of these sizes has.
pub(crate) fn area(rows: u32, columns: u32) -> usize {
    rows as usize * columns as usize
}

// How many elements a block of a matrix has, at most 4096.
pub(crate) fn block_size(matrix: Matrix, plan: Plan) -> usize
    ensures { result ≤ most_elements }
{
    let size = match matrix {
        Matrix::A => area(plan.rows, plan.inner),
        Matrix::B => area(plan.inner, plan.columns),
    };
    size.min(MOST_ELEMENTS)
}

// How many elements an answer has, at most 4096.
pub(crate) fn answer_size(plan: Plan) -> usize
    ensures { result ≤ most_elements }
{
    area(plan.rows, plan.columns).min(MOST_ELEMENTS)
}

// How many elements so many blocks of a size have.
pub(crate) fn total(count: u32, size: usize) -> usize {
    size.saturating_mul(count as usize)
}

// Where the block of an index stands among blocks of a size, one after another.
pub(crate) fn block_at(size: usize, index: u32) -> Range<usize> {
    let start = total(index, size);
    start..start.saturating_add(size)
}
