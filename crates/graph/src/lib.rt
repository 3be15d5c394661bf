//! Finite graphs whose nodes need one another: an order in which each node comes after all those that it needs, or the least node
//! that lies on a circle; and the one solution of a system of equations, one for each node, over the nodes that it needs.
#![tactic(auto)]

ghost use Rattle.std.specs.Prelude.{◌≡◌, ℕ, ◌<◌, Bool};
ghost use Rattle.graph.specs.Answer.{Answered};
ghost use Rattle.graph.specs.Needs.{Exactly};
ghost use Rattle.graph.specs.Solve.{Solved};
ghost use Rattle.graph.specs.declared.OrderFault.TheVariants.{Memory};

mod ranks;
mod reach;
mod rows;
mod systems;

use ranks::by_rank;
use reach::reached;
use std::alloc::{AllocError, AllocFailed, Global};
pub use systems::{System, solve};

/// A finite graph. Its nodes are the numbers below its size.
pub trait Graph {
    /// How many nodes there are.
    ghost size: { Self → ℕ };

    /// Does the first node need the second?
    ghost wants: { Self → ℕ → ℕ → Bool };

    /// How many nodes there are.
    fn nodes(&self) -> usize
        ensures { result ≡ size self.now };

    /// Does node `a` need node `b`?
    fn needs(&self, a: usize, b: usize) -> bool
        requires { (a < size self.now) × (b < size self.now) }
        ensures { result ≡ wants self.now a b };
}

/// Why there is no order.
#[derive(Debug, PartialEq, Eq, Clone, Copy)]
pub enum OrderFault {
    /// Some nodes lie on a circle. This is the least of them.
    Circle(usize),
    /// No memory was left.
    Memory,
}

impl From<AllocError> for OrderFault {
    ghost from_gives = { λ _ r. r ≡ Memory };

    fn from(_e: AllocError) -> OrderFault {
        OrderFault::Memory
    }
}

impl<T: Drop> From<AllocFailed<T>> for OrderFault {
    ghost from_gives = { λ _ r. r ≡ Memory };

    fn from(_e: AllocFailed<T>) -> OrderFault {
        OrderFault::Memory
    }
}

/// An order exists exactly if no node lies on a circle.
pub fn orders_stand()
    ensures { Exactly }
{}

/// Evaluation along an order solves the equations of the nodes, and nothing else solves them.
pub fn solutions_stand<V>()
    ensures { Solved V }
{}

/// Lists each node after all those that it needs, or names the least node that lies on a circle.
pub fn order<G: Graph>(heap: Global, g: &G) -> Result<Vec<usize>, OrderFault>
    ensures { Answered (G.size g.now) (G.wants g.now) result }
{
    let rows = reached(heap, g)?;
    if let Some(a) = rows.first_on_circle() {
        return Err(OrderFault::Circle(a));
    }
    let ranks = rows.ranks(heap)?;
    Ok(by_rank(heap, ranks.as_slice())?)
}
