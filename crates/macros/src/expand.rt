//! Texts with all uses of macros put in.
ghost use Rattle.std.specs.Prelude.{◌≡◌, ◌<◌, ◌≤◌, true, [], ◌∷◌, vec_len};
ghost use Rattle.verdict.specs.Circuit.{rank_in};
ghost use Rattle.verdict.specs.Macros.{names_of, text_of, finished, field};
ghost use Rattle.macros.specs.Filling.{Filled};
ghost use Rattle.macros.specs.Full.{full, said, all_before};
ghost use Rattle.macros.specs.Tables.{table_of};

use crate::pieces::{TextPiece, TextPieces};
use crate::table::Macros;
use crate::uses::{all_known, macro_of};
use refusal::kinds::{Failure, Refusal};
use scan::reader::TextWord;

/// How many bytes a field may have once its macros are put in.
const LONGEST: usize = 1023;

/// A field that is being written, and the place at which it is refused if it gets too long.
#[derive(Drop)]
struct Field<'o> {
    out: &'o mut Vec<u8>,
    place: usize,
    ghost short: { vec_len out.now ≤ 1023 },
}

impl Field<'_> {
    ghost use Rattle.macros.specs.Growing.{Grew};

    /// One byte more, unless the field is as long as one may be.
    fn put(&mut self, byte: u8) -> Result<(), Failure>
        ensures { Grew self.old self.new (byte ∷ []) result }
    {
        if self.out.len() >= LONGEST {
            return Err(Refusal::OverLimit.at(self.place).into());
        }
        self.out.push(byte)?;
        Ok(())
    }
}

impl Macros<'_> {
    ghost use Rattle.macros.specs.Growing.{Grew};

    /// Writes a text behind a field, with all uses put in. It uses only macros before `below`.
    #[cycle(expand_text_expand_use)]
    fn expand_text(&self, below: usize, text: &[u8], field: &mut Field<'_>) -> Result<(), Failure>
        requires before { all_before (names_of (table_of self.now)) below text.now ≡ true }
        requires within { below ≤ vec_len self.now.table }
        ensures { Grew field.old field.new (said below (table_of self.now) text.now) result }
    {
        for piece in TextPieces::new(text) {
            match piece {
                TextPiece::Plain(byte) => field.put(byte)?,
                TextPiece::Use(used) => self.expand_use(below, used, field)?,
            }
        }
        Ok(())
    }

    /// Writes what a use of a macro before `below` stands for behind a field: the macro's text, with all uses put in.
    #[cycle(expand_text_expand_use)]
    fn expand_use(&self, below: usize, used: &[u8], field: &mut Field<'_>) -> Result<(), Failure>
        requires before { rank_in (names_of (table_of self.now)) used.now < below }
        requires within { below ≤ vec_len self.now.table }
        ensures { Grew field.old field.new (text_of (full below (table_of self.now)) used.now) result }
    {
        let Some(at) = macro_of(self.table.as_slice(), used) else {
            unreachable()
        };
        self.expand_text(at, self.table[at].text, field)
    }

    /// Writes a field with its macros put in to `out`, in place of what it held: refused if it uses an unknown macro, and
    /// then if it has more than 1,023 bytes. Never more than these are written.
    pub fn fill(&self, word: TextWord<'_>, out: &mut Vec<u8>) -> Result<(), Failure>
        ensures filled { Filled word.entry.place (field (finished (table_of self.now)) word.entry.text.now) out.new.items result }
        ensures short { vec_len out.new ≤ 1023 }
    {
        out.clear();
        if !all_known(self.table.as_slice(), word.text) {
            return Err(Refusal::UnknownMacro.at(word.place).into());
        }
        let mut written = Field {
            out,
            place: word.place,
        };
        self.expand_text(self.table.len(), word.text, &mut written)
    }
}
