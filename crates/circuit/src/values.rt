//! The values of expressions and parts, from the words that the parts show by rank.
ghost use Rattle.std.specs.Prelude.{◌≡◌, length, nat_le};
ghost use Rattle.std.specs.Option.{is_none};
ghost use Rattle.verdict.specs.Values.{item_value};
ghost use Rattle.circuit.specs.Meaning.{item_by, listed, width_of};
ghost use Rattle.circuit.specs.Worth.{shown_by, worth, is_astray};

use crate::parts::{Body, Expression, Item, Part};
use crate::wiring::{Circuit, marked};
use word::functions::alu;
use word::value::Word;
use word::width::Width;
use word::widths::place;

/// The word that a rank shows, and 0 past the last, so that it asks nothing of its caller.
fn shown_at(shown: &[Word], rank: usize) -> Word
    ensures { result.value ≡ shown_by shown.now rank }
{
    shown.get(rank).copied().unwrap_or(Word::zero())
}

impl<R> Item<R> {
    /// How many bits the item has, whichever way it tells its part.
    pub fn width(&self) -> Width
        ensures { result.bits ≡ width_of self.now }
    {
        match self {
            Item::Constant(_, width) => *width,
            Item::Bits(_, range) => range.width(),
        }
    }
}

impl Item<usize> {
    /// The value of the item.
    fn value(self, shown: &[Word]) -> Word
        ensures { result.value ≡ item_value (shown_by shown.now) (item_by (λ r. r) self) }
    {
        match self {
            Item::Constant(value, width) => width.low(value),
            Item::Bits(rank, range) => range.take(shown_at(shown, rank)),
        }
    }
}

/// The value of several items joined, the highest first.
fn joined(items: &[Item<usize>], shown: &[Word]) -> Word
    ensures { result.value ≡ worth shown.now items.now }
{
    let mut value = Word::zero();
    for item in items {
        value = place(value, item.width(), item.value(shown));
    }
    value
}

/// The value of an expression. Most have one item, which needs no joining.
pub fn worth(items: &[Item<usize>], shown: &[Word]) -> Word
    ensures { result.value ≡ worth shown.now items.now }
{
    match items {
        [only] => only.value(shown),
        _ => joined(items, shown),
    }
}

impl Expression {
    /// The value of the expression, in a part that joins these items.
    // One item is read where it stands: in a step a call of its own, or a slice of one, would take more than that.
    #[inline(always)]
    pub fn worth(&self, joined: &[Item<usize>], shown: &[Word]) -> Word
        ensures { result.value ≡ worth shown.now (listed joined.now self.now) }
    {
        match self {
            Expression::One(item) => item.value(shown),
            Expression::More(span) => worth(marked(joined, *span), shown),
        }
    }
}

/// The case of this number, unless there is no such case.
fn chosen(cases: &[Expression], number: Word) -> Option<&Expression>
    ensures { is_none result ≡ nat_le (length cases.now) number.value }
{
    cases.get(number.value as usize)
}

impl Part {
    /// Whether the part is a selector that has no case of the number that its select field gives.
    pub fn is_astray(&self, shown: &[Word]) -> bool
        ensures { result ≡ is_astray shown.now self.now }
    {
        match &self.body {
            Body::Selector { select, cases } => {
                let select = select.worth(self.joined.as_slice(), shown);
                chosen(cases.as_slice(), select).is_none()
            }
            Body::Alu { .. } | Body::Memory { .. } => false,
        }
    }

    /// What the part shows by its equation: a memory the word that it holds, and a selector 0 if it has no such case.
    fn value(&self, held: Word, shown: &[Word]) -> Word {
        let joined = self.joined.as_slice();
        match &self.body {
            Body::Memory { .. } => held,
            Body::Alu {
                function,
                left,
                right,
            } => alu(
                function.worth(joined, shown),
                left.worth(joined, shown),
                right.worth(joined, shown),
            ),
            Body::Selector { select, cases } => {
                match chosen(cases.as_slice(), select.worth(joined, shown)) {
                    Some(case) => case.worth(joined, shown),
                    None => Word::zero(),
                }
            }
        }
    }
}

impl Circuit {
    /// Works out what each part shows, one after the other along the order. What a memory shows before is the word that it
    /// holds, and it goes on showing that.
    pub fn settle(&self, shown: &mut [Word]) {
        for rank in &self.order {
            self.refresh(*rank, shown);
        }
    }

    /// Works out what the part of one rank shows.
    fn refresh(&self, rank: usize, shown: &mut [Word]) {
        if let Some(part) = self.parts.get(rank) {
            if rank < shown.len() {
                shown[rank] = part.value(shown[rank], shown);
            }
        }
    }
}
