//! Which node reaches which, in as many rounds as there are nodes: round k lets chains lead through node k.
ghost use Rattle.std.specs.Prelude.{◌≡◌, ◌<◌, IfOk};
ghost use Rattle.graph.specs.Grid.{table, grid, bits};
ghost use Rattle.graph.specs.Reach.{reaches};

use crate::Graph;
use crate::rows::Rows;
use std::alloc::{AllocError, Global};

/// Which nodes node `a` needs.
fn first_row<G: Graph>(heap: Global, g: &G, a: usize) -> Result<Vec<bool>, AllocError>
    requires { a < G.size g.now }
    ensures { IfOk result (λ v. v.items ≡ table (G.size g.now) (G.wants g.now a)) }
{
    (0..g.nodes()).map(|b| g.needs(a, b)).collect(heap)
}

/// Which node needs which: row a says of b whether a needs b.
fn first_rows<G: Graph>(heap: Global, g: &G) -> Result<Rows, AllocError>
    ensures { IfOk result (λ v. bits v.rows.items ≡ grid (G.size g.now) (G.wants g.now)) }
{
    let rows = (0..g.nodes())
        .map(|a| first_row(heap, g, a))
        .try_collect(heap)?;
    Ok(Rows { rows })
}

/// Which node reaches which: row a says of b whether a chain leads from a to b.
pub(crate) fn reached<G: Graph>(heap: Global, g: &G) -> Result<Rows, AllocError>
    ensures { IfOk result (λ v. bits v.rows.items ≡ grid (G.size g.now) (reaches (G.wants g.now) (G.size g.now))) }
{
    let mut rows = first_rows(heap, g)?;
    // The loop counts rounds, and walks no list.
    for k in 0..g.nodes() {
        rows = rows.next(heap, k)?;
    }
    Ok(rows)
}
