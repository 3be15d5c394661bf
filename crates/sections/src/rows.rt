//! Rows of words, and what follows them.
ghost use Rattle.std.specs.Prelude.{◌≡◌, ◌<◌, ◌≤◌, true, false, length, drop, position, slice_index_or, IfErr, IfSome, IfNone, ℕ, ◌*◌};
ghost use Rattle.refusal.specs.Numbers.{number};
ghost use Rattle.refusal.specs.declared.kinds.Refusal.TheVariants.{TextEnds};
ghost use Rattle.verdict.specs.Letters.{is_part_letter, is_stop};
ghost use Rattle.verdict.specs.Sections.{begins_macro, macro_words, up_to_stop, part_words, sections_from};
ghost use Rattle.verdict.specs.Verdict.{stop_at, missing, next_word};
ghost use Rattle.scan.specs.declared.reader.TextWord.{TextWord};
ghost use Rattle.sections.specs.Nexts.{next_of};
ghost use Rattle.sections.specs.Faults.{told, read_of, lack};
ghost use Rattle.sections.specs.TextWords.{words_of, row_of, sections_of};
ghost use Rattle.sections.specs.Walks.{marked, macro_count, PartUpTo};

use refusal::kinds::{Fault, Refusal};
use scan::reader::TextWord;

/// What follows a row of words: a word at a place, or the end of the text, at its length. Neither is an error: what is lacking
/// before it decides.
#[derive(Clone, Copy, Debug, PartialEq, Eq)]
pub enum Next {
    Word(usize),
    TextEnd(usize),
}

impl Next {
    /// What is met if a word is missing before this: the word that stands there meets `refusal`, or the text ends early.
    pub fn lacks(self, refusal: Refusal) -> Fault
        ensures value { result ≡ lack refusal self }
        ensures told { told {X = Unit {0}} result ≡ missing (number refusal) (next_of self) }
    {
        match self {
            Next::Word(place) => refusal.at(place),
            Next::TextEnd(place) => Refusal::TextEnds.at(place),
        }
    }

    /// The place of the stop that follows, unless the text ends early.
    pub fn stop(self) -> Result<usize, Fault>
        ensures read { read_of result ≡ stop_at (next_of self) }
        ensures refused { IfErr result (λ f. f.refusal ≡ TextEnds) }
    {
        match self {
            Next::Word(place) => Ok(place),
            Next::TextEnd(place) => Err(Refusal::TextEnds.at(place)),
        }
    }
}

/// The words up to a stop, what follows them, and the words after the stop.
#[derive(Clone, Copy, Debug, PartialEq, Eq)]
pub struct Row<'w, 't> {
    pub row: &'w [TextWord<'t>],
    pub next: Next,
    pub later: &'w [TextWord<'t>],
}

/// The sections of a text. Of the macros, each has two words, but the last may lack its second.
#[derive(Clone, Copy, Debug, PartialEq, Eq)]
pub struct Sections<'w, 't> {
    pub macros: &'w [TextWord<'t>],
    pub listed: &'w [TextWord<'t>],
    pub after_list: Next,
    pub parts: &'w [TextWord<'t>],
    pub after_parts: Next,
}

/// Whether a word is exactly the stop.
#[tactic(auto, using(crate::proofs::Letters::longer))]
fn is_stop(text: &[u8]) -> bool
    ensures { result ≡ is_stop text.now }
{
    matches!(text, b".")
}

/// Whether a word opens a part: exactly `A`, `S` or `M`.
#[tactic(auto, using(crate::proofs::Letters::longer))]
pub fn is_part_letter(text: &[u8]) -> bool
    ensures { result ≡ is_part_letter text.now }
{
    matches!(text, b"A" | b"S" | b"M")
}

/// Whether a word begins a macro: its first byte is `~`.
fn begins_macro(text: &[u8]) -> bool
    ensures { result ≡ begins_macro text.now }
{
    matches!(text, [b'~', ..])
}

/// Where the first stop stands.
fn stop_in(words: &[TextWord<'_>]) -> Option<usize>
    ensures { result ≡ position (λ w. is_stop w.text.now) words.now }
{
    words.iter().position(|word| is_stop(word.text))
}

/// The words up to the first stop, in a text of the length `end`.
#[tactic(auto, using(crate::proofs::Cuts::up_to_end))]
fn up_to_stop<'w, 't>(words: &'w [TextWord<'t>], end: usize) -> Row<'w, 't>
    ensures { row_of result ≡ up_to_stop end (words_of words.now) }
{
    match stop_in(words) {
        Some(at) => Row {
            row: &words[..at],
            next: Next::Word(words[at].place),
            later: &words[at + 1..],
        },
        None => Row {
            row: words,
            next: Next::TextEnd(end),
            later: &[],
        },
    }
}

/// Which pair of words is the first whose first word begins no macro.
fn first_plain_pair(words: &[TextWord<'_>]) -> Option<usize>
    ensures inside { IfSome result (λ i. i * 2 < length words.now) }
    ensures here { IfSome result (λ i. (d : TextWord) → begins_macro (slice_index_or words.now (i * 2) d).text.now ≡ false) }
    ensures before { IfSome result (λ i. (k : ℕ) (d : TextWord) → k < i → begins_macro (slice_index_or words.now (k * 2) d).text.now ≡ true) }
    ensures all { IfNone result ((k : ℕ) (d : TextWord) → k * 2 < length words.now → begins_macro (slice_index_or words.now (k * 2) d).text.now ≡ true) }
{
    words
        .iter()
        .step_by(2)
        .position(|word| !begins_macro(word.text))
}

/// How many words the macros have: the first word of each two begins with `~`.
fn macro_words(words: &[TextWord<'_>]) -> usize
    ensures count { result ≡ macro_count false (words_of words.now) }
    ensures within { result ≤ length words.now }
{
    first_plain_pair(words).map_or(words.len(), |pairs| pairs * 2)
}

/// The sections of a text of the length `end`.
#[tactic(auto, using(crate::proofs::Cuts::marked_macros))]
pub fn sections_of<'w, 't>(words: &'w [TextWord<'t>], end: usize) -> Sections<'w, 't>
    ensures sections { sections_of result ≡ sections_from end (macro_words (words_of words.now)) }
    ensures marked { marked (words_of result.macros.now) ≡ true }
{
    let count = macro_words(words);
    let list = up_to_stop(&words[count..], end);
    let parts = up_to_stop(list.later, end);
    Sections {
        macros: &words[..count],
        listed: list.row,
        after_list: list.next,
        parts: parts.row,
        after_parts: parts.next,
    }
}

/// How many words stand from a place on before the first part letter.
fn letter_from(words: &[TextWord<'_>], at: usize) -> Option<usize>
    ensures { result ≡ position (λ w. is_part_letter w.text.now) (drop at words.now) }
{
    words
        .iter()
        .skip(at)
        .position(|word| is_part_letter(word.text))
}

/// Where the part ends that begins at `from`: before the next part letter, or at the end of the row.
#[tactic(auto, using(crate::proofs::Cuts::part_found, crate::proofs::Cuts::part_missed))]
pub fn part_end(words: &[TextWord<'_>], from: usize) -> usize
    ensures part { from < length words.now → PartUpTo (words_of words.now) from result }
    ensures after { from < length words.now → from < result }
    ensures within { result ≤ length words.now }
    ensures past { length words.now ≤ from → result ≡ length words.now }
{
    let second = from.saturating_add(1);
    letter_from(words, second).map_or(words.len(), |more| second + more)
}

/// What stands in a row at a place, or what follows the row.
#[tactic(auto, using(crate::proofs::Cuts::next_word_holds, crate::proofs::Cuts::next_end))]
pub fn next_at(words: &[TextWord<'_>], at: usize, end: Next) -> Next
    ensures { next_of result ≡ next_word (part_words (drop at (words_of words.now))) (next_of end) }
{
    words.get(at).map_or(end, |word| Next::Word(word.place))
}
