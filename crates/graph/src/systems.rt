//! Equations over the nodes of a graph, one for each node, and their solution.
ghost use Rattle.std.specs.Prelude.{◌≡◌, ℕ, ◌<◌, length, slice_index_or};
ghost use Rattle.graph.specs.Needs.{Orders};
ghost use Rattle.graph.specs.Settled.{Settled};
ghost use Rattle.graph.specs.Solve.{Local, OneSolution};

use crate::{Graph, OrderFault, order};
use std::alloc::Global;

/// A graph with a rule for each node, which gives its value from the values of the nodes that it needs.
pub trait System: Graph {
    /// What a node has for its value.
    type Value: Copy;

    /// What stands for the value of a node that has none yet.
    ghost unset: { Self → Self.Value };

    /// The value of a node, from the values of all nodes.
    ghost rule: { Self → ℕ → (ℕ → Self.Value) → Self.Value };

    /// What stands for the value of a node that has none yet.
    fn blank(&self) -> Self::Value
        ensures { result ≡ unset self.now };

    /// The value of node `a`, from the values of all nodes.
    fn value(&self, a: usize, values: &[Self::Value]) -> Self::Value
        requires within { a < Self.Graph.size self.now }
        requires all { length values.now ≡ Self.Graph.size self.now }
        ensures { result ≡ rule self.now a (λ b. slice_index_or values.now b (unset self.now)) };

    /// It depends only on the nodes that the node needs.
    ghost local: { (s : Self) → Local (Self.Graph.size s) (Self.Graph.wants s) (rule s) };
}

/// Sets the value of each node along an order, whatever `values` held before.
fn evaluate<S: System>(s: &S, order: &[usize], values: &mut [S::Value])
    requires ordered { Orders (S.Graph.size s.now) (S.Graph.wants s.now) order.now }
    requires all { length values.old ≡ S.Graph.size s.now }
    ensures { OneSolution (S.unset s.now) (S.Graph.size s.now) (S.rule s.now) values.new }
{
    for a in order {
        let x = s.value(*a, values);
        values[*a] = x;
    }
}

/// The one solution of the rules of all nodes, or the least node that lies on a circle.
pub fn solve<S: System>(heap: Global, s: &S) -> Result<Vec<S::Value>, OrderFault>
    ensures { Settled (S.unset s.now) (S.Graph.size s.now) (S.Graph.wants s.now) (S.rule s.now) result }
{
    let order = order(heap, s)?;
    let mut values = vec![in heap; s.blank(); s.nodes()]?;
    evaluate(s, order.as_slice(), values.as_mut_slice());
    Ok(values)
}
