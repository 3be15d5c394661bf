//! The last line of a run.
use lines::Page;
use refusal::kinds::{Fault, Refusal};
use scan::names::Name;

/// How a run ended.
#[derive(Clone, Copy, Debug, PartialEq, Eq)]
pub enum Ending {
    /// All cycles were done.
    Done(u32),
    /// The drawing or the run sheet is refused, at a byte place.
    AtByte(Fault),
    /// The step of a cycle is refused, at the part of this name.
    InCycle(Refusal, Name, u32),
}

/// Writes `Refused` and the number of a refusal.
fn put_refusal(page: &mut Page<'_>, refusal: Refusal) {
    page.text(b"Refused ");
    page.number(refusal.number());
}

impl Ending {
    /// Writes the last line. A place that is past the numbers of 32 bits is written as the highest of them.
    pub(crate) fn write(self, page: &mut Page<'_>) {
        match self {
            Ending::Done(cycles) => {
                page.text(b"Done ");
                page.number(cycles);
            }
            Ending::AtByte(fault) => {
                put_refusal(page, fault.refusal);
                page.text(b" at byte ");
                page.number(u32::try_from(fault.place).unwrap_or(u32::MAX));
            }
            Ending::InCycle(refusal, name, cycle) => {
                put_refusal(page, refusal);
                page.text(b" at ");
                page.text(name.as_bytes());
                page.text(b" in cycle ");
                page.number(cycle);
            }
        }
        page.byte(b'\n');
    }
}
