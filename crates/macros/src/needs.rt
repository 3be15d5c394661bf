//! Which macro uses which, and an order in which each comes after those that it uses.
ghost use Rattle.std.specs.Prelude.{◌≡◌, ℕ, ◌<◌, ◌≤◌, min, length};
ghost use Rattle.links.specs.Linked.{nodes, linked};
ghost use Rattle.verdict.specs.Verdict.{macro_needs};
ghost use Rattle.macros.specs.Needs.{UsesAdded, OrderTold};
ghost use Rattle.macros.specs.Uses.{entries, places_of};

use crate::uses::{Macro, uses_macro};
use links::arcs::Links;
use names::ordered;
use refusal::kinds::{Failure, Refusal};
use std::alloc::Global;

/// Lets the macro at `from` need those of the table that its text uses.
fn link_uses(links: &mut Links, table: &[Macro<'_>], from: usize, text: &[u8])
    ensures nodes { nodes links.new ≡ nodes links.old }
    ensures arcs { UsesAdded links.old from (entries table.now) text.now (length table.now) links.new }
{
    for (to, one) in table.iter().enumerate() {
        if uses_macro(text, one.name) {
            links.add(from, to);
        }
    }
}

/// Which macro of the table uses which; of those past the first 64, nothing is told.
fn links_of(table: &[Macro<'_>]) -> Links
    ensures nodes { nodes result ≡ min (length table.now) 64 }
    ensures arcs { (x y : ℕ) → x < nodes result → y < nodes result → linked result x y ≡ macro_needs (entries table.now) x y }
{
    let mut links = Links::new(table.len());
    for (from, one) in table.iter().enumerate() {
        link_uses(&mut links, table, from, one.text);
    }
    links
}

/// An order of a table by name, in which each macro comes after those that it uses; or the least macro on a circle is refused.
pub(crate) fn order_of(heap: Global, table: &[Macro<'_>]) -> Result<Vec<usize>, Failure>
    requires { length table.now ≤ 64 }
    ensures { OrderTold (entries table.now) (places_of table.now) result }
{
    ordered(heap, &links_of(table), table, Refusal::MacroCircle)
}
