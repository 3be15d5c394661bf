//! Which node reaches which, as a square grid of truth values.
ghost use Rattle.std.specs.Prelude.{◌≡◌, ℕ, ◌<◌, true, false, ◌&&◌, ◌||◌, length, IfSome, IfOk, slice_index_or, count_by};
ghost use Rattle.std.specs.Option.{unwrap_or};
ghost use Rattle.graph.specs.Grid.{table, grid, bits, cell, Square, through};
ghost use Rattle.graph.specs.Reach.{count};

use std::alloc::{AllocError, Global};

/// Which node reaches which: row a says of b whether a reaches b.
#[derive(Drop)]
pub(crate) struct Rows {
    pub(crate) rows: Vec<Vec<bool>>,
    ghost square: { Square (bits rows.items) },
}

/// How many are true.
fn trues(row: &[bool]) -> usize
    ensures { result ≡ count_by (λ x. x) row.now }
{
    row.iter().filter(|x| **x).count()
}

/// A row once its node also reaches what node `k` reaches, if it reaches `k`; `via` is the row of `k`.
fn next_row(heap: Global, row: &[bool], via: &[bool], k: usize) -> Result<Vec<bool>, AllocError>
    requires within { k < length row.now }
    requires same { length via.now ≡ length row.now }
    ensures { IfOk result (λ v. v.items ≡ table (length row.now) (λ j. slice_index_or row.now j false || (slice_index_or row.now k false && slice_index_or via.now j false))) }
{
    let joins = row[k];
    row.iter()
        .zip(via)
        .map(|(own, more)| *own | (joins & *more))
        .collect(heap)
}

impl Rows {
    /// All rows after round `k`.
    pub(crate) fn next(&self, heap: Global, k: usize) -> Result<Rows, AllocError>
        requires { k < length self.now.rows.items }
        ensures { IfOk result (λ v. bits v.rows.items ≡ grid (length self.now.rows.items) (through (cell (bits self.now.rows.items)) k)) }
    {
        let via = self.rows[k].as_slice();
        // Tried: one closure with both calls; the proof did not close.
        let rows = self
            .rows
            .iter()
            .map(|row| row.as_slice())
            .map(|row| next_row(heap, row, via, k))
            .try_collect(heap)?;
        Ok(Rows { rows })
    }

    /// The first node that reaches itself.
    pub(crate) fn first_on_circle(&self) -> Option<usize>
        ensures found { IfSome result (λ a. (a < length self.now.rows.items) × (cell (bits self.now.rows.items) a a ≡ true)) }
        ensures before { (b : ℕ) → b < unwrap_or result (length self.now.rows.items) → cell (bits self.now.rows.items) b b ≡ false }
    {
        self.rows.iter().enumerate().position(|(a, row)| row[a])
    }

    /// The rank of each node: how many are true in its row.
    pub(crate) fn ranks(&self, heap: Global) -> Result<Vec<usize>, AllocError>
        ensures { IfOk result (λ v. v.items ≡ table (length self.now.rows.items) (λ i. count (cell (bits self.now.rows.items) i) (length self.now.rows.items))) }
    {
        self.rows
            .iter()
            .map(|row| trues(row.as_slice()))
            .collect(heap)
    }
}
