//! The verdict on a drawing's text.
ghost use Rattle.std.specs.Prelude.{length};
ghost use Rattle.std.specs.Iterator.{at_most};

use circuit::wiring::Circuit;
use draft::drafts::Draft;
use entries::{read_list, read_macros};
use link::link;
use parts::{PartReader, PartWords};
use refusal::kinds::{Failure, Refusal};
use scan::reader::TextWord;
use scan::reader::reads::drawing_words;
use sections::rows::{Next, next_at, part_end, sections_of};
use std::alloc::Global;

/// How many bytes a text may have.
const LONGEST_TEXT: usize = 131_072;

/// An accepted drawing: its circuit, and the byte place after the closing stop.
#[derive(Drop)]
pub struct Drawing {
    pub circuit: Circuit,
    pub end: usize,
}

/// Hands out the parts of a row of words, the words of each with what follows them.
#[derive(Drop)]
struct PartRows<'w, 't> {
    /// The words that are not handed out yet.
    rest: &'w [TextWord<'t>],
    /// What follows the row.
    end: Next,
}

impl<'w, 't> Iterator for PartRows<'w, 't> {
    type Item = PartWords<'w, 't>;

    ghost remaining = { λ rows. at_most (length rows.rest.now) };

    fn next(&mut self) -> Option<PartWords<'w, 't>> {
        let rest = self.rest;
        if rest.is_empty() {
            return None;
        }
        let end = part_end(rest, 0);
        self.rest = &rest[end..];
        Some(PartWords {
            words: &rest[..end],
            next: next_at(rest, end, self.end),
        })
    }
}

/// Reads the parts one after the other.
fn read_parts(
    reader: &mut PartReader<'_>,
    draft: &mut Draft,
    rows: PartRows<'_, '_>,
) -> Result<(), Failure> {
    for words in rows {
        reader.read(draft, words)?;
    }
    Ok(())
}

/// Reads a drawing's text.
pub fn read(heap: Global, text: &[u8]) -> Result<Drawing, Failure> {
    if text.len() > LONGEST_TEXT {
        return Err(Refusal::TextTooLong.at(0).into());
    }
    let words: Vec<TextWord<'_>> = drawing_words(text).collect(heap)?;
    let sections = sections_of(words.as_slice(), text.len());
    let macros = read_macros(heap, sections.macros)?;
    let listed = read_list(heap, sections.listed)?;
    sections.after_list.stop()?;
    let mut reader = PartReader::new(heap, macros);
    let mut draft = Draft::new(heap);
    let rows = PartRows {
        rest: sections.parts,
        end: sections.after_parts,
    };
    read_parts(&mut reader, &mut draft, rows)?;
    let stop = sections.after_parts.stop()?;
    let circuit = link(heap, draft, listed.as_slice())?;
    Ok(Drawing {
        circuit,
        end: stop.saturating_add(1),
    })
}
