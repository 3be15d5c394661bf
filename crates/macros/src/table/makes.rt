//! The macros of a drawing, judged and set in order.
ghost use Rattle.std.specs.Prelude.{◌≡◌, ℕ, ◌<◌, length, IfOk, slice_index};
ghost use Rattle.verdict.specs.Verdict.{refuse_first};
ghost use Rattle.names.specs.Checks.{told};
ghost use Rattle.macros.specs.Tables.{unknowns, picked, Made};
ghost use Rattle.macros.specs.Uses.{entries, places_of};

use super::Macros;
use crate::needs::order_of;
use crate::uses::{Macro, all_known};
use names::sorted;
use refusal::kinds::{Failure, Fault, Refusal};
use std::alloc::{AllocError, Global};

/// How many macros a drawing may define.
const MOST_MACROS: usize = 64;

/// Refuses the first macro of the table whose text uses an unknown one.
fn check_known(table: &[Macro<'_>]) -> Result<(), Fault>
    ensures { told result ≡ refuse_first 18 (unknowns (entries table.now)) (places_of table.now) }
{
    // No call of `check_named`: that tests the name of each, and this the text.
    if let Some(one) = table.iter().find(|one| !all_known(table, one.text)) {
        return Err(Refusal::UnknownMacro.at(one.place));
    }
    Ok(())
}

/// The macros of the table at these places.
fn arranged<'t>(
    heap: Global,
    table: &[Macro<'t>],
    order: &[usize],
) -> Result<Vec<Macro<'t>>, AllocError>
    requires { (i : ℕ) → i < length order.now → slice_index order.now i < length table.now }
    ensures { IfOk result (λ v. entries v.items ≡ picked (entries table.now) order.now) }
{
    order.iter().map(|at| table[*at]).collect(heap)
}

impl<'t> Macros<'t> {
    /// The macros that a drawing defines: refused if one uses an unknown one, or if some use each other in a circle, each
    /// time at the least macro concerned.
    pub fn new(heap: Global, defined: &[Macro<'t>]) -> Result<Macros<'t>, Failure>
        ensures { Made defined.now result }
    {
        if let Some(one) = defined.get(MOST_MACROS) {
            return Err(Refusal::OverLimit.at(one.place).into());
        }
        let by_name = sorted(heap, defined)?;
        let rows = by_name.as_slice();
        check_known(rows)?;
        let order = order_of(heap, rows)?;
        let table = arranged(heap, rows, order.as_slice())?;
        Ok(Macros { table })
    }
}
