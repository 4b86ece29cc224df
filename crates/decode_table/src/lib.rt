// Tables put together from answers: each block of the table is a sum of some hosts' answers, each times its weight.
#![tactic(auto)]

ghost use Rattle.std.specs.Prelude.{◌≡◌, ◌*◌, ◌%◌, ◌^◌, ◌<◌, ◌≤◌, length, drop};
ghost use Rattle.algebra.specs.Lists.{tab};
ghost use Rattle.refusal.specs.Chain.{outside};
ghost use Rattle.refusal.specs.Limits.{most_elements};
ghost use Rattle.field.specs.Modulus.{prime};
ghost use Rattle.sums.specs.Internal.{zeros};
ghost use Rattle.decode_table.specs.Internal.{piece_count, answers_added, piece_sum, pieces_of, sizes_test};
ghost use Rattle.decode_table.specs.Internal.{misfit as contracts_misfit, table_after, Weighted, There};

use field::Modulus;

// The table: grid_rows by grid_columns blocks, each block_rows by block_columns.
#[derive(Clone, Copy)]
pub struct Shape {
    pub grid_rows: usize,
    pub grid_columns: usize,
    pub block_rows: usize,
    pub block_columns: usize,
}

// A number is not 1 to 4096.
fn no_size(n: usize) -> bool
    ensures { result ≡ outside 1 most_elements n }
{
    (n < 1) | (refusal::MOST_ELEMENTS < n)
}

// A size of the table, or the number of indices, is not 1 to 4096.
fn sizes_test(s: Shape, count: usize) -> bool
    ensures { result ≡ sizes_test s count }
{
    let grid = no_size(s.grid_rows) | no_size(s.grid_columns);
    let block = no_size(s.block_rows) | no_size(s.block_columns);
    grid | block | no_size(count)
}

// A size is not 1 to 4096, or a buffer is not of exact length.
// Stays: the five numbers go together in this one call, and a struct of them is no plainer.
fn misfit(s: Shape, count: usize, weights: usize, sums: usize, room: usize) -> bool
    ensures { result ≡ contracts_misfit s count weights sums room }
{
    if sizes_test(s, count) {
        return true;
    }
    (weights != count * (s.grid_rows * s.grid_columns))
        | (sums != s.block_columns)
        | (room != s.grid_rows * s.block_rows * s.grid_columns * s.block_columns)
}

// The answer of an index, and all that lies behind it.
fn answer_at(source: &[u32], index: u32, size: usize) -> &[u32]
    requires { size ≤ most_elements * most_elements }
    ensures { result.now ≡ drop (index * size) source.now }
{
    let start = (index as usize * size).min(source.len());
    &source[start..]
}

// Adds to the sums the rows of the answers of some indices, each times its weight, two at a time. The weights lie a step apart,
// the answers a size.
// Stays: the parameters go together in this one call, and a struct of them is no plainer.
fn add_answers(
    modulus: Modulus,
    sums: &mut [u64],
    weights: &[u32],
    step: usize,
    indices: &[u32],
    source: &[u32],
    size: usize,
)
    requires { There weights.now step indices.now size }
    ensures { let given = sums.old in let ws = weights.now in
        sums.new ≡ answers_added (prime modulus) given ws step indices.now source.now size }
{
    let pairs = indices.len() / 2;
    for c in 0..pairs {
        let i = c * 2;
        let weight = weights[i * step];
        let answer = answer_at(source, indices[i], size);
        let second = weights[(i + 1) * step];
        let next = answer_at(source, indices[i + 1], size);
        sums_modular::add_pair(modulus, sums, weight, answer, second, next);
    }
    let last = pairs * 2;
    if last < indices.len() {
        let weight = weights[last * step];
        let answer = answer_at(source, indices[last], size);
        sums_modular::add_row(modulus, sums, weight, answer);
    }
}

// Answers, each with its weight for each block of a table.
#[derive(Clone, Copy)]
struct Combination<'a> {
    modulus: Modulus,
    shape: Shape,
    indices: &'a [u32],
    weights: &'a [u32],
    store: &'a [u32],
    ghost weighted: { Weighted shape indices.now weights.now },
}

impl Combination<'_> {
    // The sums of a piece of the table, from the weights of its block and the answers' rows that are its own. There is a sum for
    // each element.
    fn piece_sums(&self, piece: usize, sums: &mut [u64])
        requires { piece < piece_count self.now.shape }
        ensures { let a = self.now in let indices = a.indices.now in
            let sum = piece_sum (prime a.modulus) a.shape indices a.weights.now a.store.now piece in
            sums.new ≡ tab (λ v. sum v % 2 ^ 64) (length sums.old) }
    {
        let s = self.shape;
        let row = piece / s.grid_columns;
        let block = row / s.block_rows * s.grid_columns + piece % s.grid_columns;
        let offset = (row % s.block_rows * s.block_columns).min(self.store.len());
        sums::clear(sums);
        add_answers(
            self.modulus,
            sums,
            &self.weights[block..],
            s.grid_rows * s.grid_columns,
            self.indices,
            &self.store[offset..],
            s.block_rows * s.block_columns,
        );
    }

    // The table, piece by piece.
    fn put_pieces(&self, sums: &mut [u64], table: &mut [u32])
        requires { let s = self.now.shape in
            length sums.old ≡ s.block_columns × length table.old ≡ piece_count s * s.block_columns }
        ensures { let a = self.now in
            table.new ≡ pieces_of (prime a.modulus) a.shape a.indices.now a.weights.now a.store.now }
    {
        let s = self.shape;
        let columns = s.block_columns;
        for piece in 0..s.grid_rows * s.block_rows * s.grid_columns {
            let start = piece * columns;
            let end = start + columns;
            self.piece_sums(piece, sums);
            sums::reduce_row(self.modulus, sums, &mut table[start..end]);
        }
    }
}

// Puts the table together from the answers of some indices, by the weights of these. A sum is lent for each column; all are 0
// then. Where a size is not 1 to 4096 or a length is not the right one, the table stays as it was.
pub fn table_pieces(
    modulus: Modulus,
    s: Shape,
    indices: &[u32],
    weights: &[u32],
    store: &[u32],
    sums: &mut [u64],
    table: &mut [u32],
)
    ensures table { let ws = weights.now in let answers = store.now in let lent = length sums.old in
        table.new ≡ table_after (prime modulus) s indices.now ws answers lent table.old }
    ensures sums { sums.new ≡ zeros sums.old }
{
    if !misfit(s, indices.len(), weights.len(), sums.len(), table.len()) {
        let answers = Combination {
            modulus,
            shape: s,
            indices,
            weights,
            store,
        };
        answers.put_pieces(sums, table);
    }
    sums::clear(sums);
}
