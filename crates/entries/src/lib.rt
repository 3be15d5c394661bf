//! The macros and the list of a drawing.
#![tactic(auto)]

pub use draft::entry::Entry;
use macros::table::Macros;
use macros::uses::Macro;
use names::new_name;
use refusal::kinds::{Failure, Fault, Refusal};
use scan::reader::TextWord;
use sections::rows::is_part_letter;
use std::alloc::Global;

/// One macro of two words beside those met, or nothing if the second word is missing: the text ends there. Its name is
/// judged in both cases.
fn defines<'t>(met: &[Macro<'t>], pair: &[TextWord<'t>]) -> Result<Option<Macro<'t>>, Fault> {
    let [first, rest @ ..] = pair else {
        return Ok(None);
    };
    let name = after_mark(first.text);
    let _ = new_name(met, name, first.place)?;
    Ok(
        rest.first().map(|second| Macro {
            name,
            text: second.text,
            place: first.place,
        }),
    )
}

/// A word without its first byte.
fn after_mark(text: &[u8]) -> &[u8] {
    match text {
        [_, rest @ ..] => rest,
        [] => text,
    }
}

/// The macros that a drawing defines: of the words of its first section, each two make one.
fn defined<'t>(heap: Global, words: &[TextWord<'t>]) -> Result<Vec<Macro<'t>>, Failure> {
    let mut met: Vec<Macro<'t>> = Vec::new(heap);
    // A loop, since each is judged beside those met.
    for pair in words.chunks(2) {
        if let Some(one) = defines(met.as_slice(), pair)? {
            met.push(one)?;
        }
    }
    Ok(met)
}

/// The macros of a drawing, their names judged one after the other, and then their texts.
pub fn read_macros<'t>(heap: Global, words: &[TextWord<'t>]) -> Result<Macros<'t>, Failure> {
    let all = defined(heap, words)?;
    Macros::new(heap, all.as_slice())
}

/// A word of the list without its star, and whether it has one.
fn starred(text: &[u8]) -> (&[u8], bool) {
    match text {
        [name @ .., b'*'] => (name, true),
        _ => (text, false),
    }
}

/// One listed name beside those met.
fn one_entry(met: &[Entry], word: TextWord<'_>) -> Result<Entry, Fault> {
    if is_part_letter(word.text) {
        return Err(Refusal::Malformed.at(word.place));
    }
    let (text, traced) = starred(word.text);
    let name = new_name(met, text, word.place)?;
    Ok(Entry {
        name,
        place: word.place,
        traced,
    })
}

/// The list of a drawing.
pub fn read_list(heap: Global, words: &[TextWord<'_>]) -> Result<Vec<Entry>, Failure> {
    let mut met = Vec::new(heap);
    // A loop, since each is judged beside those met.
    for word in words {
        let one = one_entry(met.as_slice(), *word)?;
        met.push(one)?;
    }
    Ok(met)
}
