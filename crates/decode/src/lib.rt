// Decoding: the table is interpolated from the answers of the K lowest-numbered hosts heard.
#![tactic(auto)]

ghost use Rattle.std.specs.Prelude.{◌≡◌, map, ◌*◌, ◌≤◌, length, get_or};
ghost use Rattle.algebra.specs.Lists.{tab, AllBelow};
ghost use Rattle.refusal.specs.Chain.{answered};
ghost use Rattle.refusal.specs.Limits.{most_elements};
ghost use Rattle.field.specs.Modulus.{prime};
ghost use Rattle.layout.specs.Exponents.{exponents};
ghost use Rattle.layout.specs.Internal.{Follows};
ghost use Rattle.decode_table.specs.Internal.{block_count};
ghost use Rattle.decode.specs.Decoding.{heard_below, table_tests, decode_tests, table_after};
ghost use Rattle.decode.specs.Internal.{Limited, shape, host_weight, decoding_weights, weighted_table, Roomy};

use decode_table::Shape;
use field::Modulus;
use layout::{Series, Strides};
use plan::{Job, Plan};
use refusal::{MOST_ELEMENTS, Refusal};

// The most hosts, the most coefficients of the product over their points, the most blocks of a table, and the most weights: one
// for each of these hosts and blocks.
const MOST_HOSTS: usize = refusal::MOST_HOSTS as usize;

const MOST_ROOTS: usize = MOST_HOSTS + 1;

const MOST_BLOCKS: usize = 64;

const MOST_WEIGHTS: usize = MOST_HOSTS * MOST_BLOCKS;

// Up to so many weights and columns, only so many weights and sums are made: to make the most takes longer than a small table.
const FEW_WEIGHTS: usize = 256;

const FEW_COLUMNS: usize = 64;

// The blocks of the hosts heard have elements below the prime; other blocks are not looked at.
#[tactic(auto, using(crate::proofs::Stored::heard_none, crate::proofs::Stored::heard_next), unfolding(arrival::specs::Arriving::block_at))]
fn heard_below(modulus: Modulus, size: usize, heard: u64, store: &[u32], hosts: u32) -> bool
    requires { size ≤ most_elements × hosts ≤ 64 × length store.now ≡ hosts * size }
    ensures { result ≡ heard_below (prime modulus) size heard store.now hosts }
{
    let mut over = false;
    for index in 0..hosts {
        if arrival_heard::is_heard(heard, index) {
            let start = index as usize * size;
            let end = start + size;
            over = over | !field::all_below(modulus, &store[start..end]);
        }
    }
    !over
}

// Tests 21, 13, 24 and 14: the hosts heard, the lengths, how many are heard, and the elements of their blocks.
#[tactic(auto, using(crate::proofs::Answering::own_tests, plan::proofs::Tested::tested), unfolding(refusal::specs::Numbers::refusal_of, refusal::specs::Numbers::sheet))]
fn table_refusal(
    job: Job,
    plan: Plan,
    heard: u64,
    store: &[u32],
    room: usize,
) -> Result<(), Refusal>
    requires { Limited job plan }
    ensures { result ≡ answered (table_tests job heard store.now room) tt }
{
    let modulus = plan.modulus;
    let size = plan.rows as usize * plan.columns as usize;
    if arrival_heard::some_above(job.hosts, heard) {
        return Err(Refusal::HeardAbove);
    }
    if (store.len() != job.hosts as usize * size) | (room != job.t as usize * job.r as usize) {
        return Err(Refusal::Length);
    }
    if u64::count_ones(heard) < plan.needed {
        return Err(Refusal::TooFew);
    }
    if !heard_below(modulus, size, heard, store, job.hosts) {
        return Err(Refusal::Element);
    }
    Ok(())
}

// The points of the hosts of some indices.
fn points_at(points: &[u32], indices: &[u32], out: &mut [u32])
    requires { AllBelow (length points.now) indices.now × length out.old ≡ length indices.now }
    ensures { out.new ≡ map (λ h. get_or points.now h 0) indices.now }
{
    for (c, &index) in indices.iter().enumerate() {
        out[c] = points[index as usize];
    }
}

// The chosen hosts of a planned job, by their indices and points, and the store that has their answers.
#[derive(Clone, Copy)]
struct Choice<'a> {
    plan: Plan,
    indices: &'a [u32],
    points: &'a [u32],
    store: &'a [u32],
    ghost roomy: { Roomy plan (length points.now) },
    ghost wide: { plan.columns ≤ most_elements },
}

impl Choice<'_> {
    // The weights of the chosen host whose point is x: its basis polynomial has them at the places of the table's blocks. The roots
    // are the product over all the chosen points.
    fn host_weights(&self, strides: Strides, x: u32, roots: &[u32], out: &mut [u32])
        requires { let plan = self.now.plan in
            Follows strides plan.parameters (exponents plan.layout plan.parameters)
            × length out.old ≡ block_count (shape plan) }
        ensures { let plan = self.now.plan in
            out.new ≡ tab (host_weight plan x self.now.points.now roots.now) (block_count (shape plan)) }
    {
        let modulus = self.plan.modulus;
        let grid_columns = self.plan.parameters.n as usize;
        let mut room = [0u32; MOST_HOSTS];
        let quotient = &mut room[..self.points.len()];
        decode_basis::divide_root(modulus, roots, x, quotient);
        let scale = decode_basis::basis_scale(modulus, x, self.points);
        for (b, weight) in out.iter_mut().enumerate() {
            let row = (b / grid_columns) as u8;
            let column = (b % grid_columns) as u8;
            let place = layout::exponent_of(Series::Places, strides, row, column) as usize;
            *weight = field::multiply(modulus, scale, quotient[place]);
        }
    }

    // The weights of the chosen hosts, host by host.
    fn decoding_weights(&self, weights: &mut [u32])
        requires { let a = self.now in
            length weights.old ≡ length a.points.now * block_count (shape a.plan) }
        ensures { weights.new ≡ decoding_weights self.now.plan self.now.points.now }
    {
        let layout = self.plan.layout;
        let g = self.plan.parameters;
        let strides = layout::strides_of(layout, g);
        let size = g.m as usize * g.n as usize;
        let mut room = [0u32; MOST_ROOTS];
        let roots = &mut room[..self.points.len() + 1];
        decode_basis::from_roots(self.plan.modulus, self.points, roots);
        // Stays: by ranges, since the contract of chunks_exact_mut does not tell what the rows hold in the end.
        for (c, &x) in self.points.iter().enumerate() {
            let start = c * size;
            let end = start + size;
            self.host_weights(strides, x, roots, &mut weights[start..end]);
        }
    }

    // The table put together from the answers, with room for so many weights, one for each host and block, and so many sums, one
    // for each column.
    #[tactic(auto, unfolding(decode_table::specs::Internal::block_count, crate::specs::Internal::shape, crate::specs::Internal::weighted_table))]
    fn put_table<const WEIGHTS: usize, const SUMS: usize>(&self, table: &mut [u32])
        requires weights { let a = self.now in
            length a.points.now * block_count (shape a.plan) ≤ WEIGHTS × WEIGHTS ≤ MOST_WEIGHTS }
        requires sums { self.now.plan.columns ≤ SUMS × SUMS ≤ MOST_ELEMENTS }
        ensures { let a = self.now in let hosts = a.indices.now in let xs = a.points.now in
            table.new ≡ weighted_table a.plan hosts xs a.store.now table.old }
    {
        let g = self.plan.parameters;
        let s = Shape {
            grid_rows: g.m as usize,
            grid_columns: g.n as usize,
            block_rows: self.plan.rows as usize,
            block_columns: self.plan.columns as usize,
        };
        let mut weight_room = [0u32; WEIGHTS];
        let mut sum_room = [0u64; SUMS];
        let count = self.points.len() * (s.grid_rows * s.grid_columns);
        let weights = &mut weight_room[..count];
        let sums = &mut sum_room[..s.block_columns];
        self.decoding_weights(weights);
        decode_table::table_pieces(
            self.plan.modulus,
            s,
            self.indices,
            weights,
            self.store,
            sums,
            table,
        );
    }

    // The same, with few weights and sums or the most.
    #[tactic(auto, unfolding(decode_table::specs::Internal::block_count, crate::specs::Internal::shape))]
    fn decode_chosen(&self, table: &mut [u32])
        ensures { let a = self.now in let hosts = a.indices.now in let xs = a.points.now in
            table.new ≡ weighted_table a.plan hosts xs a.store.now table.old }
    {
        let g = self.plan.parameters;
        let count = self.points.len() * (g.m as usize * g.n as usize);
        if (FEW_WEIGHTS < count) | (FEW_COLUMNS < self.plan.columns as usize) {
            self.put_table::<MOST_WEIGHTS, MOST_ELEMENTS>(table);
        } else {
            self.put_table::<FEW_WEIGHTS, FEW_COLUMNS>(table);
        }
    }
}

// Decodes the table from the answers of the K lowest-numbered hosts heard: the table then holds it, or the call is refused and the
// table stays as it was.
#[tactic(auto, using(crate::proofs::Outcomes::few, crate::proofs::Outcomes::room_length, crate::proofs::Outcomes::wide))]
pub fn decode(
    job: Job,
    points: &[u32],
    heard: u64,
    store: &[u32],
    table: &mut [u32],
) -> Result<(), Refusal>
    ensures number { let room = length table.old in
        result ≡ answered (decode_tests job points.now heard store.now room) tt }
    ensures table { let was = table.old in
        table.new ≡ table_after job points.now heard store.now was }
{
    let plan = plan::plan_job(job, points)?;
    table_refusal(job, plan, heard, store, table.len())?;
    let needed = plan.needed as usize;
    let mut index_room = [0u32; MOST_HOSTS];
    let mut point_room = [0u32; MOST_HOSTS];
    let indices = &mut index_room[..needed];
    let chosen = &mut point_room[..needed];
    arrival_heard::lowest_heard(heard, indices);
    points_at(points, indices, chosen);
    let choice = Choice {
        plan,
        indices,
        points: chosen,
        store,
    };
    choice.decode_chosen(table);
    Ok(())
}
