// Sharing: the masked block of a matrix that a host gets.
#![tactic(auto)]

ghost use Rattle.std.specs.Prelude.{◌≡◌, ◌++◌, ◌≤◌, length, drop};
ghost use Rattle.refusal.specs.Chain.{answered, unless_refused};
ghost use Rattle.field.specs.Modulus.{prime};
ghost use Rattle.layout.specs.Exponents.{exponents};
ghost use Rattle.share_side.specs.Sides.{matrix_tests};
ghost use Rattle.share_side.specs.Internal.{plan_side, Small, weight_count, side_weights};
ghost use Rattle.share.specs.Sharing.{share_of, share_tests, share_after};

use field::Modulus;
use layout::Strides;
use plan::{Job, Plan};
use refusal::Refusal;
use share_blocks::MOST_TERMS;
pub use share_side::{Matrix, Side};

// The weights of a side: those of its blocks, row by row, and then those of its masks.
fn side_weights(modulus: Modulus, strides: Strides, s: Side, x: u32, weights: &mut [u32])
    requires { Small s × weight_count s ≤ length weights.old }
    ensures { weights.new ≡ side_weights (prime modulus) strides s x ++ drop (weight_count s) weights.old }
{
    for k in 0..s.grid_rows {
        let start = k * s.grid_columns;
        let end = start + s.grid_columns;
        let row = &mut weights[start..end];
        share_side::weigh(modulus, strides, s.blocks, k as u8, x, row);
    }
    let start = s.grid_rows * s.grid_columns;
    let end = start + s.mask_count;
    share_side::weigh(modulus, strides, s.masks, 0, x, &mut weights[start..end]);
}

// The share of the host whose point is x, of an accepted job's plan: the tests 13 to 15, and then the block.
// Stays: what the caller of `share` lends is handed on, once.
fn share_planned(
    matrix: Matrix,
    plan: Plan,
    x: u32,
    xs: &[u32],
    masks: &[u32],
    out: &mut [u32],
) -> Result<(), Refusal>
    requires { Small (plan_side matrix plan) }
    ensures number { let room = length out.old in
        result ≡ answered (matrix_tests (prime plan.modulus) (plan_side matrix plan) xs.now masks.now room) tt }
    ensures block { let q = prime plan.modulus in let e = exponents plan.layout plan.parameters in
        let s = plan_side matrix plan in let given = xs.now in let ms = masks.now in let was = out.old in
        out.new ≡ unless_refused (matrix_tests q s given ms (length was)) (share_of q e s x given ms) was }
{
    let modulus = plan.modulus;
    let s = share_side::side_of(matrix, plan);
    let strides = layout::strides_of(plan.layout, plan.parameters);
    let mut weights = [0u32; MOST_TERMS];
    side_weights(modulus, strides, s, x, &mut weights);
    share_blocks::encode(modulus, s, &weights, xs, masks, out)
}

// The share of a host, numbered from 1: the output then holds it, or the call is refused and the output stays as it was. The
// masks are lent, one block after another.
// Stays: the signature is that of the documents, and C's calls have it.
pub fn share(
    matrix: Matrix,
    job: Job,
    points: &[u32],
    host: u32,
    xs: &[u32],
    masks: &[u32],
    out: &mut [u32],
) -> Result<(), Refusal>
    ensures number { let room = length out.old in
        result ≡ answered (share_tests matrix job points.now host xs.now masks.now room) tt }
    ensures block { let was = out.old in
        out.new ≡ share_after matrix job points.now host xs.now masks.now was }
{
    let plan = plan::plan_job(job, points)?;
    if refusal::outside(1, job.hosts, host) {
        return Err(Refusal::Host);
    }
    let index = host as usize - 1;
    share_planned(matrix, plan, points[index], xs, masks, out)
}
