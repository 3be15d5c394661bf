//! The board's line and notes, written piece by piece onto a page over a lent buffer.
ghost use Rattle.std.specs.Prelude.{◌≡◌, ◌≤◌, length, IfOk, OnErr};

use crate::boards::Board;
use lines::{Page, fitted, number_length};
use ports::notes::{Access, Note};
use refusal::kinds::{Fault, Refusal};
use scan::names::Name;

/// Writes a cycle number in at least three places, with blanks in front.
fn put_cycle(page: &mut Page<'_>, cycle: u32) {
    for _ in number_length(cycle)..3 {
        page.byte(b' ');
    }
    page.number(cycle);
}

/// Writes what was noted of the memory of a name.
fn put_note(page: &mut Page<'_>, name: &Name, note: Note) {
    match note.access {
        Access::Write => page.text(b"  Write to "),
        Access::Read => page.text(b"  Read from "),
    }
    page.text(name.as_bytes());
    page.text(b" at ");
    page.number(note.address.value);
    page.text(b": ");
    page.number(note.held.value);
    page.byte(b'\n');
}

/// The refusal of a buffer that is shorter than needed.
fn short(needed: usize) -> Fault {
    Refusal::BufferShort(needed).at(0)
}

impl Board {
    /// Writes the line.
    fn write_line(&self, page: &mut Page<'_>) {
        page.text(b"Cycle ");
        put_cycle(page, self.cycle);
        for listed in &self.circuit.listed {
            if listed.traced {
                self.write_shown(page, listed.rank);
            }
        }
        page.byte(b'\n');
    }

    /// Writes the name and the value of the part of a rank.
    fn write_shown(&self, page: &mut Page<'_>, rank: usize) {
        if let (Some(name), Some(value)) = (self.name_at(rank), self.shown.get(rank)) {
            page.byte(b' ');
            page.text(name.as_bytes());
            page.text(b"= ");
            page.number(value.value);
        }
    }

    /// Writes the notes.
    fn write_notes(&self, page: &mut Page<'_>) {
        for memory in &self.memories {
            if let (Some(name), Some(note)) = (self.name_at(memory.rank), memory.note) {
                put_note(page, &name, note);
            }
        }
    }

    /// Writes the trace line of the cycle, and answers its length: `Cycle `, the cycle number, and each traced name with
    /// its value, in list order. A buffer that is too short is left as it was.
    pub fn line(&self, out: &mut [u8]) -> Result<usize, Fault>
        ensures within { IfOk result (λ n. n ≤ length out.old) }
        ensures kept { OnErr result (out.new ≡ out.old) }
    {
        fitted(out, |page| self.write_line(page)).map_err(short)
    }

    /// Writes what was noted of the memories in the last accepted step since the board was new, by rank, and answers its
    /// length. A buffer that is too short is left as it was.
    pub fn notes(&self, out: &mut [u8]) -> Result<usize, Fault>
        ensures within { IfOk result (λ n. n ≤ length out.old) }
        ensures kept { OnErr result (out.new ≡ out.old) }
    {
        fitted(out, |page| self.write_notes(page)).map_err(short)
    }

    /// The name of the part of a rank.
    pub fn name_at(&self, rank: usize) -> Option<Name> {
        self.circuit.parts.get(rank).map(|part| part.name)
    }
}
