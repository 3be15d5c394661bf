//! What is about to be done in a step, from the values that are shown before it.
use circuit::parts::{Body, Part};
use ports::memory::Memory;
use refusal::kinds::{Fault, Refusal};
use word::value::Word;

/// Plans what a memory does by the values of the expressions of its part.
fn plan_by(memory: &mut Memory, part: &Part, shown: &[Word]) -> Result<(), Fault> {
    let joined = part.joined.as_slice();
    match &part.body {
        Body::Memory {
            address,
            data,
            operation,
            ..
        } => memory.plan(
            address.worth(joined, shown),
            data.worth(joined, shown),
            operation.worth(joined, shown),
        ),
        Body::Alu { .. } | Body::Selector { .. } => Ok(()),
    }
}

/// Plans what each memory does, and refuses the first whose address is past its last word.
pub fn plan_all(parts: &[Part], shown: &[Word], memories: &mut [Memory]) -> Result<(), Fault> {
    for memory in memories.iter_mut() {
        if let Some(part) = parts.get(memory.rank) {
            plan_by(memory, part, shown)?;
        }
    }
    Ok(())
}

/// Refuses the first selector that is astray.
pub fn check_selectors(parts: &[Part], shown: &[Word]) -> Result<(), Fault> {
    match parts.iter().position(|part| part.is_astray(shown)) {
        Some(rank) => Err(Refusal::Astray.at(rank)),
        None => Ok(()),
    }
}
