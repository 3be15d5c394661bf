//! One part of a drawing, from its words.
#![tactic(auto)]

ghost use Rattle.std.specs.Prelude.{◌≡◌};
ghost use Rattle.macros.specs.Tables.{table_of};

use circuit::parts::{Body, Item, Span};
use circuit::wiring::marked;
use draft::drafts::{Draft, Drafted, MOST_WORDS, Reference};
use items::expression::{judge, keep};
use macros::table::Macros;
use numbers::number;
use refusal::kinds::{Failure, Fault, Refusal};
use scan::names::Name;
use scan::reader::TextWord;
use sections::rows::Next;
use std::alloc::Global;
use word::value::Word;

/// How many cases a selector may have.
const MOST_CASES: usize = 128;

/// What a drafted part is.
type DraftedBody = Body<Span, Span, Span>;

/// The kinds of parts.
#[derive(Clone, Copy, Debug, PartialEq, Eq)]
enum Kind {
    Alu,
    Selector,
    Memory,
}

/// A memory's size: so many words 0, or so many words that follow.
#[derive(Clone, Copy, Debug, PartialEq, Eq)]
enum Size {
    Zeros(usize),
    Given(usize),
}

impl Size {
    /// How many words it is.
    fn count(self) -> usize {
        match self {
            Size::Zeros(count) | Size::Given(count) => count,
        }
    }
}

/// The words of one part that are still to be read, and what follows them.
#[derive(Clone, Copy, Debug, PartialEq, Eq)]
pub struct PartWords<'w, 't> {
    pub words: &'w [TextWord<'t>],
    pub next: Next,
}

impl<'w, 't> PartWords<'w, 't> {
    /// The next word of the part. If it is missing, what stands there is a part letter or a stop, which is malformed, or
    /// the text ends early.
    fn take(&mut self) -> Result<TextWord<'t>, Fault> {
        match self.words {
            [word, rest @ ..] => {
                self.words = rest;
                Ok(*word)
            }
            [] => Err(self.next.lacks(Refusal::Malformed)),
        }
    }

    /// Makes sure that the part has no more words.
    fn end(self) -> Result<(), Fault> {
        match self.words.first() {
            Some(word) => Err(Refusal::Malformed.at(word.place)),
            None => Ok(()),
        }
    }
}

/// The kind of part that a letter opens.
// A letter is a character; a match on bytes is no plainer.
fn kind_for(letter: char) -> Option<Kind> {
    match letter {
        'A' => Some(Kind::Alu),
        'S' => Some(Kind::Selector),
        'M' => Some(Kind::Memory),
        _ => None,
    }
}

/// The kind of part that a word opens, if it is exactly a part letter.
fn kind_of(word: TextWord<'_>) -> Result<Kind, Fault> {
    let kind = match word.text {
        [letter] => kind_for(char::from(*letter)),
        _ => None,
    };
    kind.ok_or(Refusal::Malformed.at(word.place))
}

/// The name that an item tells, with the place of its field.
fn reference(item: &Item<Name>, place: usize) -> Option<Reference> {
    match item {
        Item::Constant(_, _) => None,
        Item::Bits(name, _) => Some(Reference { name: *name, place }),
    }
}

/// A number from 1 to 4,096.
fn size_number(text: &[u8], place: usize) -> Result<usize, Fault> {
    let size = number(text, place)?.value as usize;
    if (1..=MOST_WORDS).contains(&size) {
        Ok(size)
    } else {
        Err(Refusal::OutOfRange.at(place))
    }
}

/// The size `n`, or `-n`.
fn size_of(text: &[u8], place: usize) -> Result<Size, Fault> {
    match text {
        [b'-', digits @ ..] => size_number(digits, place).map(Size::Given),
        _ => size_number(text, place).map(Size::Zeros),
    }
}

/// Reads the parts of a drawing whose macros it holds.
#[derive(Drop)]
pub struct PartReader<'t> {
    macros: Macros<'t>,
    /// The field that is being read, with its macros put in.
    field: Vec<u8>,
}

impl<'t> PartReader<'t> {
    /// A reader of parts in which these macros are used.
    pub fn new(heap: Global, macros: Macros<'t>) -> PartReader<'t>
        ensures { table_of result.macros ≡ table_of macros.entry }
    {
        PartReader {
            macros,
            field: Vec::new(heap),
        }
    }

    /// Puts the macros into the field of a word, which is then `field`.
    fn fill(&mut self, word: TextWord<'_>) -> Result<(), Failure> {
        self.macros.fill(word, &mut self.field)
    }

    /// Reads an expression, and keeps its items.
    pub fn expression(&mut self, draft: &mut Draft, word: TextWord<'_>) -> Result<Span, Failure> {
        self.fill(word)?;
        let count = judge(self.field.as_slice(), word.place)?;
        draft.items.claim(count, word.place)?;
        let start = draft.kept.len();
        keep(self.field.as_slice(), word.place, &mut draft.kept)?;
        let end = draft.kept.len();
        // Most fields have one item, for which a call of `extend` takes more than the push.
        for item in marked(draft.kept.as_slice(), Span { start, end }) {
            if let Some(reference) = reference(item, word.place) {
                draft.references.push(reference)?;
            }
        }
        Ok(Span { start, end })
    }

    /// Reads one part and keeps it.
    pub fn read(&mut self, draft: &mut Draft, mut words: PartWords<'_, '_>) -> Result<(), Failure> {
        let kind = kind_of(words.take()?)?;
        let word = words.take()?;
        let name = draft.name(word)?;
        // Three kinds, each known by its name: a table of readers would say no more.
        let body = match kind {
            Kind::Alu => self.alu(draft, words)?,
            Kind::Selector => self.selector(draft, words)?,
            Kind::Memory => self.memory(draft, words)?,
        };
        draft.parts.push(Drafted {
            name,
            place: word.place,
            body,
        })?;
        Ok(())
    }

    /// `A name function left right`
    fn alu(
        &mut self,
        draft: &mut Draft,
        mut words: PartWords<'_, '_>,
    ) -> Result<DraftedBody, Failure> {
        let function = self.expression(draft, words.take()?)?;
        let left = self.expression(draft, words.take()?)?;
        let right = self.expression(draft, words.take()?)?;
        words.end()?;
        Ok(Body::Alu {
            function,
            left,
            right,
        })
    }

    /// `S name select case case ..`
    fn selector(
        &mut self,
        draft: &mut Draft,
        mut words: PartWords<'_, '_>,
    ) -> Result<DraftedBody, Failure> {
        let select = self.expression(draft, words.take()?)?;
        if words.words.is_empty() {
            return Err(words.next.lacks(Refusal::OutOfRange).into());
        }
        let start = draft.cases.len();
        for word in words.words {
            self.case(draft, start, *word)?;
        }
        let end = draft.cases.len();
        Ok(Body::Selector {
            select,
            cases: Span { start, end },
        })
    }

    /// One more case of the selector whose cases begin at `start`.
    fn case(&mut self, draft: &mut Draft, start: usize, word: TextWord<'_>) -> Result<(), Failure> {
        let case = self.expression(draft, word)?;
        if draft.cases.len().saturating_sub(start) >= MOST_CASES {
            return Err(Refusal::OverLimit.at(word.place).into());
        }
        draft.cases.push(case)?;
        Ok(())
    }

    /// `M name address data operation size`, and first words if the size asks for them.
    fn memory(
        &mut self,
        draft: &mut Draft,
        mut words: PartWords<'_, '_>,
    ) -> Result<DraftedBody, Failure> {
        let address = self.expression(draft, words.take()?)?;
        let data = self.expression(draft, words.take()?)?;
        let operation = self.expression(draft, words.take()?)?;
        let first = self.first_words(draft, &mut words)?;
        Ok(Body::Memory {
            address,
            data,
            operation,
            first,
        })
    }

    /// The first words of a memory, by its size, which end the part. The drawing's room for words is asked first, and taken by the
    /// words as they are kept.
    fn first_words(
        &mut self,
        draft: &mut Draft,
        words: &mut PartWords<'_, '_>,
    ) -> Result<Span, Failure> {
        let word = words.take()?;
        self.fill(word)?;
        let size = size_of(self.field.as_slice(), word.place)?;
        draft.words.check(size.count(), word.place)?;
        let start = draft.first.len();
        match size {
            Size::Zeros(count) => {
                words.end()?;
                draft.words.claim(count, word.place)?;
                draft
                    .first
                    .resize(start.saturating_add(count), Word::zero())?;
            }
            Size::Given(count) => {
                self.given(draft, words, count)?;
                words.end()?;
            }
        }
        let end = draft.first.len();
        Ok(Span { start, end })
    }

    /// So many words that stand in the text.
    fn given(
        &mut self,
        draft: &mut Draft,
        words: &mut PartWords<'_, '_>,
        count: usize,
    ) -> Result<(), Failure> {
        // The loop counts words that may be missing, and walks no list.
        for _ in 0..count {
            let word = words.take()?;
            self.fill(word)?;
            let value = number(self.field.as_slice(), word.place)?;
            draft.words.claim(1, word.place)?;
            draft.first.push(value)?;
        }
        Ok(())
    }
}
