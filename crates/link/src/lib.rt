//! The checks after the closing stop, and the circuit: parts by rank, telling each other by rank.
#![tactic(auto)]

ghost use Rattle.std.specs.Prelude.{◌≡◌, map, IfErr};
ghost use Rattle.refusal.specs.Numbers.{number};
ghost use Rattle.refusal.specs.declared.kinds.Refusal.TheVariants.{NoSuchPart};
ghost use Rattle.scan.specs.NameBytes.{name_bytes};
ghost use Rattle.verdict.specs.Verdict.{check_among};
ghost use Rattle.names.specs.Checks.{told};
ghost use Rattle.draft.specs.declared.drafts.Reference.{Reference};

use circuit::parts::{Body, Expression, Item, Listed, Part, Span};
use circuit::wiring::{Circuit, marked};
use draft::drafts::{Draft, Drafted, Reference};
use draft::entry::Entry;
use links::arcs::Links;
use names::{Named, check_named, find, ordered, sorted};
use refusal::kinds::{Failure, Fault, Refusal};
use scan::names::Name;
use std::alloc::{AllocError, Global};

/// Refuses the first name in an expression that no part has. The references are in text order.
pub fn check_references<T: Named>(references: &[Reference], parts: &[T]) -> Result<(), Fault>
    ensures first { told result ≡ check_among (number NoSuchPart) (map T.label parts.now) (map (λ (r : Reference). (name_bytes r.name, r.place)) references.now) }
    ensures kind { IfErr result (λ f. f.refusal ≡ NoSuchPart) }
{
    check_named(references, parts, Refusal::NoSuchPart)
}

/// The rank of a name among parts that stand by name. Each name was checked before, so one that none has, which would get
/// the number of parts, does not occur; an `Option` would need a branch that gives up.
fn rank_of<T: Named>(parts: &[T], name: &Name) -> usize {
    find(parts, name.as_bytes()).unwrap_or(parts.len())
}

/// An item that tells its part by rank.
fn ranked_item<T: Named>(item: &Item<Name>, parts: &[T]) -> Item<usize> {
    match item {
        Item::Constant(value, width) => Item::Constant(*value, *width),
        Item::Bits(name, range) => Item::Bits(rank_of(parts, name), *range),
    }
}

/// Puts items that tell parts by rank behind those that are there, and answers which they are.
fn add_ranked(
    joined: &mut Vec<Item<usize>>,
    items: &[Item<Name>],
    parts: &[Drafted],
) -> Result<Span, AllocError> {
    let start = joined.len();
    // Mostly a few, for which one call of `extend` takes more than each push.
    for item in items {
        joined.push(ranked_item(item, parts))?;
    }
    let end = joined.len();
    Ok(Span { start, end })
}

/// An expression of these items that tells parts by rank. Several items go behind those that its part joins already.
// Most fields have one item, for which a call would take more than what it does.
#[inline]
fn ranked(
    joined: &mut Vec<Item<usize>>,
    items: &[Item<Name>],
    parts: &[Drafted],
) -> Result<Expression, AllocError> {
    match items {
        [only] => Ok(Expression::One(ranked_item(only, parts))),
        _ => add_ranked(joined, items, parts).map(Expression::More),
    }
}

/// What a part of the draft is, with parts told by rank, and the items that it joins.
fn ranked_body(
    heap: Global,
    draft: &Draft,
    body: Body<Span, Span, Span>,
    parts: &[Drafted],
    joined: &mut Vec<Item<usize>>,
) -> Result<Body<Expression>, AllocError> {
    let mut expression = |at: Span| ranked(joined, marked(draft.kept.as_slice(), at), parts);
    match body {
        Body::Memory {
            address,
            data,
            operation,
            first,
        } => Ok(Body::Memory {
            address: expression(address)?,
            data: expression(data)?,
            operation: expression(operation)?,
            first: Vec::from_slice(heap, marked(draft.first.as_slice(), first))?,
        }),
        Body::Alu {
            function,
            left,
            right,
        } => Ok(Body::Alu {
            function: expression(function)?,
            left: expression(left)?,
            right: expression(right)?,
        }),
        Body::Selector { select, cases } => {
            let select = expression(select)?;
            let named = marked(draft.cases.as_slice(), cases);
            let mut cases = Vec::with_capacity(heap, named.len())?;
            for case in named {
                // Not by `expression`, whose call would take more than what it does for one item.
                let items = marked(draft.kept.as_slice(), *case);
                cases.push(ranked(joined, items, parts)?)?;
            }
            Ok(Body::Selector { select, cases })
        }
    }
}

/// A part with parts told by rank.
fn ranked_part(
    heap: Global,
    draft: &Draft,
    part: &Drafted,
    parts: &[Drafted],
) -> Result<Part, AllocError> {
    let mut joined = Vec::new(heap);
    let body = ranked_body(heap, draft, part.body, parts, &mut joined)?;
    // The part keeps no room for items that will not come.
    joined.shrink_to_fit();
    Ok(Part {
        name: part.name,
        joined,
        body,
    })
}

/// The parts of a circuit, of parts of the draft that stand by name.
fn ranked_parts(heap: Global, draft: &Draft, parts: &[Drafted]) -> Result<Vec<Part>, AllocError> {
    parts
        .iter()
        .map(|part| ranked_part(heap, draft, part, parts))
        .try_collect(heap)
}

/// The list with parts told by rank.
pub fn ranked_list<T: Named>(
    heap: Global,
    listed: &[Entry],
    parts: &[T],
) -> Result<Vec<Listed>, AllocError> {
    listed
        .iter()
        .map(|entry| Listed {
            rank: rank_of(parts, &entry.name),
            traced: entry.traced,
        })
        .collect(heap)
}

/// Lets the part `from` need the parts that an expression reads.
fn link_expression(
    links: &mut Links,
    from: usize,
    joined: &[Item<usize>],
    expression: &Expression,
) {
    for item in expression.items(joined) {
        if let Item::Bits(rank, _) = item {
            links.add(from, *rank);
        }
    }
}

/// Lets the part `from` need the parts that it reads. A memory shows the word that it holds, so it needs none.
fn link_part(links: &mut Links, from: usize, part: &Part) {
    let joined = part.joined.as_slice();
    match &part.body {
        Body::Memory { .. } => {}
        Body::Alu {
            function,
            left,
            right,
        } => {
            link_expression(links, from, joined, function);
            link_expression(links, from, joined, left);
            link_expression(links, from, joined, right);
        }
        Body::Selector { select, cases } => {
            link_expression(links, from, joined, select);
            for case in cases.as_slice() {
                link_expression(links, from, joined, case);
            }
        }
    }
}

/// Which part reads which.
fn links_of(parts: &[Part]) -> Links {
    let mut links = Links::new(parts.len());
    for (from, part) in parts.iter().enumerate() {
        link_part(&mut links, from, part);
    }
    links
}

/// The circuit of parts and list once all was read, if it meets none of the checks after the closing stop: each listed name
/// has a part, each part is listed, and expressions name parts; and the ALUs and selectors read each other in no circle.
pub fn link(heap: Global, draft: Draft, listed: &[Entry]) -> Result<Circuit, Failure> {
    let by_name = sorted(heap, draft.parts.as_slice())?;
    let listed_by_name = sorted(heap, listed)?;
    check_named(
        listed_by_name.as_slice(),
        by_name.as_slice(),
        Refusal::ListedWithoutPart,
    )?;
    check_named(
        by_name.as_slice(),
        listed_by_name.as_slice(),
        Refusal::PartNotListed,
    )?;
    check_references(draft.references.as_slice(), by_name.as_slice())?;
    let parts = ranked_parts(heap, &draft, by_name.as_slice())?;
    let order = ordered(
        heap,
        &links_of(parts.as_slice()),
        by_name.as_slice(),
        Refusal::PartCircle,
    )?;
    let listed = ranked_list(heap, listed, by_name.as_slice())?;
    Ok(Circuit {
        listed,
        parts,
        order,
    })
}
