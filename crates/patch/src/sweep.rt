// Halving a patch in its place, by sums alone: every number gets one number added in each sweep, so it loses one doubling's room, and
// after as many sweeps as the degree says the half stands there.
ghost use Rattle.std.specs.Prelude.{◌≡◌, ℕ, ◌+◌, ◌-◌, ◌*◌, ◌^◌, ◌<◌, ◌≤◌, true, map, length};
ghost use Rattle.algebra.specs.Pair.{sum, Within};
ghost use Rattle.algebra.specs.Form.{other};
ghost use Rattle.number.specs.Limits.{may_grow};
ghost use Rattle.patch.specs.Judging.{all_grow};
ghost use Rattle.patch.specs.Sweeps.{pair_at, row_of, added_row, half_at, half_of, Kept, block_size, spot, in_row, farther};

use crate::shape::Shape;
use algebra::Half;
use number::Number;

// A block is degree + 1 rows of `stride` numbers each. Its rows are counted from the end that the half keeps, so that one text serves
// both halves. The block goes beside them: of a struct that lends both, each method would have to say that it keeps the rows and the loan.
#[derive(Clone, Copy)]
struct Rows {
    degree: usize,
    stride: usize,
    half: Half,
}

impl Rows {
    // Where row u begins in its block.
    fn start(self, u: usize) -> usize
        requires row { u ≤ self.degree }
        requires fits { block_size self < 2 ^ 64 }
        ensures { result ≡ row_of self.half self.degree u * self.stride }
    {
        match self.half {
            Half::Lower => u * self.stride,
            Half::Upper => (self.degree - u) * self.stride,
        }
    }
}

// Adds to each number of a row that of another.
fn add_row<K: Number>(row: &mut [K], other: &[K])
    requires alike { length row.old ≡ length other.now }
    requires small { (i : ℕ) → i < length row.old → Within K.limit (sum (pair_at (map K.means row.old) i) (pair_at (map K.means other.now) i)) }
    ensures { (i : ℕ) → i < length row.old → pair_at (map K.means row.new) i ≡ sum (pair_at (map K.means row.old) i) (pair_at (map K.means other.now) i) }
{
    // By the place: after a `zip` over `iter_mut` a proof would know no more of the row than its length.
    for (i, x) in row.iter_mut().enumerate() {
        *x = x.add(other[i]);
    }
}

// Adds each number of a row to itself. No call of `add_row`: one row cannot be lent both to be read and to be written.
fn double_row<K: Number>(row: &mut [K])
    requires { (i : ℕ) → i < length row.old → Within K.limit (sum (pair_at (map K.means row.old) i) (pair_at (map K.means row.old) i)) }
    ensures { (i : ℕ) → i < length row.old → pair_at (map K.means row.new) i ≡ sum (pair_at (map K.means row.old) i) (pair_at (map K.means row.old) i) }
{
    for x in row.iter_mut() {
        *x = x.add(*x);
    }
}

// Adds to one of two neighbouring rows the other, which is the nearer to the end that the half keeps.
fn add_beside<K: Number>(two: &mut [K], stride: usize, half: Half)
    requires whole { length two.old ≡ stride + stride }
    requires small { (i : ℕ) → i < stride → Within K.limit (sum (pair_at (map K.means two.old) (farther half stride i)) (pair_at (map K.means two.old) (farther (other half) stride i))) }
    ensures sums { (i : ℕ) → i < stride → pair_at (map K.means two.new) (farther half stride i) ≡ sum (pair_at (map K.means two.old) (farther half stride i)) (pair_at (map K.means two.old) (farther (other half) stride i)) }
    ensures kept { (i : ℕ) → i < stride → pair_at (map K.means two.new) (farther (other half) stride i) ≡ pair_at (map K.means two.old) (farther (other half) stride i) }
{
    let (low, high) = two.split_at_mut(stride);
    match half {
        Half::Lower => add_row(high, low),
        Half::Upper => add_row(low, high),
    }
}

// Row u in sweep j: it gets the row before it added, which stands beside it, and the first j + 1 rows get themselves.
fn sweep_row<K: Number>(block: &mut [K], rows: Rows, j: usize, u: usize)
    requires row { u ≤ rows.degree }
    requires whole { length block.old ≡ block_size rows }
    requires small { (i : ℕ) → i < rows.stride → Within K.limit (sum (in_row rows (map K.means block.old) u i) (in_row rows (map K.means block.old) (added_row j u) i)) }
    ensures sums { (i : ℕ) → i < rows.stride → in_row rows (map K.means block.new) u i ≡ sum (in_row rows (map K.means block.old) u i) (in_row rows (map K.means block.old) (added_row j u) i) }
    ensures kept { Kept (spot rows u 0) (spot rows u rows.stride) (pair_at (map K.means block.new)) (pair_at (map K.means block.old)) }
{
    let to = rows.start(u);
    if j < u {
        let both = to.min(rows.start(u - 1));
        add_beside(
            &mut block[both..both + 2 * rows.stride],
            rows.stride,
            rows.half,
        );
    } else {
        double_row(&mut block[to..to + rows.stride]);
    }
}

// Sweep j over a block, from its last row on, so that each row still finds the one before it as that was.
fn sweep<K: Number>(block: &mut [K], rows: Rows, j: usize)
    requires whole { length block.old ≡ block_size rows }
    requires small { (u v i : ℕ) → u ≤ rows.degree → v ≤ rows.degree → i < rows.stride → Within K.limit (sum (in_row rows (map K.means block.old) u i) (in_row rows (map K.means block.old) v i)) }
    ensures { (u i : ℕ) → u ≤ rows.degree → i < rows.stride → in_row rows (map K.means block.new) u i ≡ sum (in_row rows (map K.means block.old) u i) (in_row rows (map K.means block.old) (added_row j u) i) }
{
    for u in (0..=rows.degree).rev() {
        sweep_row(block, rows, j, u);
    }
}

// Halves one block.
fn halve_block<K: Number>(block: &mut [K], rows: Rows)
    requires whole { length block.old ≡ block_size rows }
    requires small { (p : ℕ) → p < length block.old → may_grow K.limit rows.degree (pair_at (map K.means block.old) p) ≡ true }
    ensures { (p : ℕ) → p < length block.old → pair_at (map K.means block.new) p ≡ half_at rows.half rows.degree rows.stride (pair_at (map K.means block.old)) p }
{
    for j in 0..rows.degree {
        sweep(block, rows, j);
    }
}

// Halves a patch in its place.
pub(crate) fn halve_patch<K: Number>(patch: &mut [K], shape: Shape, half: Half)
    requires some { 0 < shape.blocks }
    requires whole { length patch.old ≡ shape.blocks * ((shape.degree + 1) * shape.stride) }
    requires small { all_grow K.limit shape.degree (map K.means patch.old) ≡ true }
    ensures { map K.means patch.new ≡ half_of half shape.degree shape.stride (map K.means patch.old) }
{
    let rows = Rows {
        degree: usize::from(shape.degree),
        stride: shape.stride,
        half,
    };
    let size = (rows.degree + 1) * rows.stride;
    // By the number: after `chunks_exact_mut` a proof would know no more of the patch than its length.
    for b in 0..shape.blocks {
        halve_block(&mut patch[b * size..(b + 1) * size], rows);
    }
}
