// Encoding: each block of a matrix and each mask times its weight, summed into one block.
#![tactic(auto)]

ghost use Rattle.std.specs.Prelude.{◌≡◌, ◌+◌, ◌^◌, ◌%◌, ◌<◌, ◌≤◌, length, get_or};
ghost use Rattle.algebra.specs.Lists.{tab};
ghost use Rattle.refusal.specs.Chain.{answered};
ghost use Rattle.field.specs.Modulus.{prime};
ghost use Rattle.share_side.specs.Sides.{block_length};
ghost use Rattle.share_blocks.specs.Internal.{
  beyond,
  encode_tests,
  Encodable,
  block_terms,
  mask_terms,
  row_sums,
  encoded_block,
  encoded,
};

use field::Modulus;
use refusal::{MOST_ELEMENTS, Refusal};
use share_side::Side;

// The most blocks and masks that a side has, together.
pub const MOST_TERMS: usize = 80;

// The most rows of blocks, or columns of them, and the most masks.
const MOST_CUTS: usize = 8;

const MOST_MASKS: usize = 16;

// Up to so many columns, only so many sums are made: to make the most takes longer than a small block.
const FEW_COLUMNS: usize = 64;

// A side is beyond the limits.
#[tactic(auto, unfolding(crate::specs::Internal::beyond, refusal::specs::Chain::outside, share_side::specs::Sides::block_length))]
fn beyond_limits(s: Side) -> bool
    ensures { result ≡ beyond s }
{
    if (MOST_ELEMENTS < s.block_rows) | (MOST_ELEMENTS < s.block_columns) {
        return true;
    }
    let grid = (MOST_CUTS < s.grid_rows) | (MOST_CUTS < s.grid_columns);
    let masks = (s.mask_count < 1) | (MOST_MASKS < s.mask_count);
    grid | masks | (MOST_ELEMENTS < s.block_rows * s.block_columns)
}

// The tests of encoding: 6 of a side beyond the limits, which no accepted job has, and 13 to 15 of the matrix, the masks and the
// room for the block.
#[tactic(auto, unfolding(crate::specs::Internal::encode_tests, share_side::specs::Sides::matrix_tests, share_side::specs::Sides::matrix_length, share_side::specs::Sides::mask_length, share_side::specs::Sides::block_length, refusal::specs::Chain::answered, refusal::specs::Chain::outcome, refusal::specs::Chain::first, refusal::specs::Numbers::refusal_of, refusal::specs::Numbers::sheet))]
fn encode_refusal(
    modulus: Modulus,
    s: Side,
    xs: &[u32],
    masks: &[u32],
    room: usize,
) -> Result<(), Refusal>
    ensures { result ≡ answered (encode_tests (prime modulus) s xs.now masks.now room) tt }
{
    if beyond_limits(s) {
        return Err(Refusal::Block);
    }
    let block = s.block_rows * s.block_columns;
    let matrix = s.grid_rows * s.grid_columns * block;
    if (xs.len() != matrix) | (masks.len() != s.mask_count * block) | (room != block) {
        return Err(Refusal::Length);
    }
    if !field::all_below(modulus, xs) {
        return Err(Refusal::Element);
    }
    if !field::all_below(modulus, masks) {
        return Err(Refusal::Mask);
    }
    Ok(())
}

// What is encoded: a side within the limits, the weights of its blocks and masks, its matrix and its masks.
#[derive(Clone, Copy)]
struct Terms<'a> {
    modulus: Modulus,
    side: Side,
    weights: &'a [u32],
    xs: &'a [u32],
    masks: &'a [u32],
    ghost encodable: { Encodable side weights.now xs.now masks.now },
}

impl Terms<'_> {
    // Adds the blocks' part of row i of the block to the sums: each row of blocks has one row of the matrix in it.
    // Stays: the fact is of the row that is asked for, and not of what is encoded.
    fn add_blocks(&self, i: usize, sums: &mut [u64])
        requires { i < self.now.side.block_rows }
        ensures { let t = self.now in let before = sums.old in
            let terms = block_terms (prime t.modulus) t.side t.weights.now t.xs.now i in
            sums.new ≡ tab (λ j. (get_or before j 0 + terms j) % 2 ^ 64) (length before) }
    {
        let s = self.side;
        let weights = self.weights;
        let xs = self.xs;
        let width = s.grid_columns * s.block_columns;
        for k in 0..s.grid_rows {
            let start = k * s.grid_columns;
            let end = start + s.grid_columns;
            let from = (k * s.block_rows + i) * width;
            sums_modular::add_rows(
                self.modulus,
                sums,
                &weights[start..end],
                &xs[from..],
                s.block_columns,
            );
        }
    }

    // Adds the masks' part of row i of the block to the sums: each mask has one row in it.
    fn add_masks(&self, i: usize, sums: &mut [u64])
        requires { i < self.now.side.block_rows }
        ensures { let t = self.now in let before = sums.old in
            let terms = mask_terms (prime t.modulus) t.side t.weights.now t.masks.now i in
            sums.new ≡ tab (λ j. (get_or before j 0 + terms j) % 2 ^ 64) (length before) }
    {
        let s = self.side;
        let start = s.grid_rows * s.grid_columns;
        let end = start + s.mask_count;
        let from = i * s.block_columns;
        let block = s.block_rows * s.block_columns;
        let weights = self.weights;
        let masks = self.masks;
        sums_modular::add_rows(
            self.modulus,
            sums,
            &weights[start..end],
            &masks[from..],
            block,
        );
    }

    // The sums of row i of the block.
    fn sum_row(&self, i: usize, sums: &mut [u64])
        requires { i < self.now.side.block_rows }
        ensures { let t = self.now in
            let terms = row_sums (prime t.modulus) t.side t.weights.now t.xs.now t.masks.now i in
            sums.new ≡ tab (λ j. terms j % 2 ^ 64) (length sums.old) }
    {
        sums::clear(sums);
        self.add_blocks(i, sums);
        self.add_masks(i, sums);
    }

    // The block, row by row, with room for so many sums, one for each column.
    fn encode_rows<const SUMS: usize>(&self, out: &mut [u32])
        requires sums { self.now.side.block_columns ≤ SUMS × SUMS ≤ MOST_ELEMENTS }
        requires block { length out.old ≡ block_length self.now.side }
        ensures { let t = self.now in
            out.new ≡ encoded_block (prime t.modulus) t.side t.weights.now t.xs.now t.masks.now }
    {
        let columns = self.side.block_columns;
        let mut room = [0u64; SUMS];
        let sums = &mut room[..columns];
        // Stays: by ranges, since the contract of chunks_exact_mut does not tell what the rows hold in the end.
        for i in 0..self.side.block_rows {
            let start = i * columns;
            let end = start + columns;
            self.sum_row(i, sums);
            sums::reduce_row(self.modulus, sums, &mut out[start..end]);
        }
    }

    // The block, with few sums or the most.
    fn encode_block(&self, out: &mut [u32])
        requires { length out.old ≡ block_length self.now.side }
        ensures { let t = self.now in
            out.new ≡ encoded_block (prime t.modulus) t.side t.weights.now t.xs.now t.masks.now }
    {
        if self.side.block_columns <= FEW_COLUMNS {
            self.encode_rows::<FEW_COLUMNS>(out);
        } else {
            self.encode_rows::<MOST_ELEMENTS>(out);
        }
    }
}

// The block: the output then holds it, or the call is refused and the output stays as it was.
pub fn encode(
    modulus: Modulus,
    s: Side,
    weights: &[u32; MOST_TERMS],
    xs: &[u32],
    masks: &[u32],
    out: &mut [u32],
) -> Result<(), Refusal>
    ensures number { result
        ≡ answered (encode_tests (prime modulus) s xs.now masks.now (length out.old)) tt }
    ensures block { out.new
        ≡ encoded (prime modulus) s weights.now xs.now masks.now out.old }
{
    encode_refusal(modulus, s, xs, masks, out.len())?;
    let terms = Terms {
        modulus,
        side: s,
        weights,
        xs,
        masks,
    };
    terms.encode_block(out);
    Ok(())
}
