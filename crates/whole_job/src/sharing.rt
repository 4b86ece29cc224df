// The shares of all hosts.
use crate::blocks::{block_at, block_size};
use crate::planning::Whole;
use refusal::Refusal;
use share::Matrix;

// The shares of both matrices, for all hosts one after another.
#[derive(Clone, Copy)]
pub(crate) struct Shares<'a> {
    pub(crate) a: &'a [u32],
    pub(crate) b: &'a [u32],
}

// Makes the shares of a matrix for all hosts.
fn share_all(whole: &Whole, matrix: Matrix, out: &mut [u32]) -> Result<(), Refusal> {
    let sections = whole.sections;
    let points = sections.points.numbers;
    let (xs, masks) = match matrix {
        Matrix::A => (sections.a.numbers, sections.masks_a.numbers),
        Matrix::B => (sections.b.numbers, sections.masks_b.numbers),
    };
    let size = block_size(matrix, whole.plan);
    for index in 0..whole.job.hosts {
        let share = out.get_mut(block_at(size, index)).ok_or(Refusal::Length)?;
        share::share(matrix, whole.job, points, index + 1, xs, masks, share)?;
    }
    Ok(())
}

// Makes the shares of both matrices for all hosts, in the rooms lent.
pub(crate) fn share_both<'a>(
    whole: &Whole,
    a: &'a mut [u32],
    b: &'a mut [u32],
) -> Result<Shares<'a>, Refusal> {
    share_all(whole, Matrix::A, a)?;
    share_all(whole, Matrix::B, b)?;
    Ok(Shares { a, b })
}
