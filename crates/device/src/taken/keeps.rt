//! What is done with the words that a port has taken.
ghost use Rattle.std.specs.Prelude.{◌≡◌, [], nat_eq};
ghost use Rattle.std.specs.Cmp.{on_equiv, on_per, partial_equiv_from_equiv};
ghost use Rattle.std.specs.Cmp.Lexicographic.{pointwise, nat_list_eq_equiv};
ghost use Rattle.device.specs.Meaning.{one_more, one_less};
ghost use Rattle.device.specs.Answers.{admitted};
ghost use Rattle.device.specs.Kept.{values, kept, room};

use crate::taken::Taken;
use refusal::kinds::{Fault, Refusal};
use word::value::Word;

impl<const N: usize> Taken<N> {
    /// No words yet, and space for `N`.
    pub fn new() -> Taken<N>
        ensures words { kept N result ≡ [] }
        ensures space { room N result ≡ N }
    {
        Taken {
            words: [Word::zero(); N],
            count: 0,
        }
    }

    /// For how many words there is still space.
    pub fn space(&self) -> usize
        ensures { result ≡ room N self.now }
    {
        N - self.count
    }

    /// The words, the last taken last.
    pub fn words(&self) -> &[Word]
        ensures { values result.now ≡ kept N self.now }
    {
        let all = &self.words[..];
        &all[0..self.count]
    }

    /// The same words once more.
    pub fn copied(&self) -> Taken<N>
        ensures { result ≡ self.now }
    {
        *self
    }

    /// Adds `word` at the end. It is refused where there is no space.
    pub fn push(&mut self, word: Word) -> Result<(), Fault>
        ensures answer { result ≡ admitted (room N self.old) }
        ensures words { kept N self.new ≡ one_more (kept N self.old) word.value (room N self.old) }
        ensures space { room N self.new ≡ one_less (room N self.old) }
    {
        if self.count == N {
            return Err(Refusal::NoSpace.at(0));
        }
        self.words[self.count] = word;
        self.count += 1;
        Ok(())
    }
}

/// Equal are those with the same words, whatever lies behind these in storage.
impl<const N: usize> PartialEq for Taken<N> {
    ghost eq = { λ a b. pointwise nat_eq (kept N a) (kept N b) };

    ghost laws = { on_per (kept N) (partial_equiv_from_equiv nat_list_eq_equiv) };

    fn eq(&self, other: &Taken<N>) -> bool {
        self.words() == other.words()
    }
}

impl<const N: usize> Eq for Taken<N> {
    ghost laws = { on_equiv (kept N) nat_list_eq_equiv };
}
