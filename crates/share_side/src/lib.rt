// The sides of a job, and the weights of their blocks and masks at a host's point.
#![tactic(auto)]

ghost use Rattle.std.specs.Prelude.{◌≡◌};
ghost use Rattle.field.specs.Modulus.{prime};
ghost use Rattle.share_side.specs.Internal.{plan_side, weighed};

use field::Modulus;
use layout::{Series, Strides};
use plan::Plan;

// How many columns can be numbered.
const MOST_NUMBERED: usize = 256;

// Which matrix is shared.
#[derive(Clone, Copy, Debug, PartialEq, Eq)]
pub enum Matrix {
    A,
    B,
}

// A side: its grid of blocks, rows by columns; a block, rows by columns; the number of its masks; and the series of the
// exponents of its blocks and masks.
#[derive(Clone, Copy)]
pub struct Side {
    pub grid_rows: usize,
    pub grid_columns: usize,
    pub block_rows: usize,
    pub block_columns: usize,
    pub mask_count: usize,
    pub blocks: Series,
    pub masks: Series,
}

// The side of a matrix, of an accepted job's plan.
#[tactic(auto, unfolding(crate::specs::Internal::plan_side))]
pub fn side_of(matrix: Matrix, plan: Plan) -> Side
    ensures { result ≡ plan_side matrix plan }
{
    let g = plan.parameters;
    // Stays: the two sides differ in every field, and seven parameters of a function that makes them would be no plainer.
    match matrix {
        Matrix::A => Side {
            grid_rows: g.m as usize,
            grid_columns: g.p as usize,
            block_rows: plan.rows as usize,
            block_columns: plan.inner as usize,
            mask_count: g.xa as usize,
            blocks: Series::BlocksA,
            masks: Series::MasksA,
        },
        Matrix::B => Side {
            grid_rows: g.p as usize,
            grid_columns: g.n as usize,
            block_rows: plan.inner as usize,
            block_columns: plan.columns as usize,
            mask_count: g.xb as usize,
            blocks: Series::BlocksB,
            masks: Series::MasksB,
        },
    }
}

// Writes the weights of a row of blocks, or of the masks, over a list: the point x to each exponent. Past the 256 columns that
// can be numbered the list stays as it was.
pub fn weigh(modulus: Modulus, strides: Strides, series: Series, row: u8, x: u32, out: &mut [u32])
    ensures { out.new ≡ weighed (prime modulus) strides series row x out.old }
{
    let n = out.len().min(MOST_NUMBERED);
    for (j, weight) in out[..n].iter_mut().enumerate() {
        let exponent = layout::exponent_of(series, strides, row, j as u8);
        *weight = field::power(modulus, x, exponent);
    }
}
