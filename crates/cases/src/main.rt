//! Runs many inputs of asimrun one after another. Standard input holds the cases: for each a line with its name and the
//! length of its input, the bytes of the input, and a line end. For each its name is printed, and what asimrun prints.
#![tactic(auto)]

ghost use Rattle.std.specs.Prelude.{◌<◌, length, IfSome};
ghost use Rattle.std.specs.Iterator.{at_most};

use bench::transcript::Bench;
use numbers::number;
use std::io::{BufWriter, Read, Write};

/// How many cases there are at most.
const MOST_CASES: usize = 100_000;

/// One case, and the bytes after it.
#[derive(Clone, Copy, Debug, PartialEq, Eq)]
struct Case<'a> {
    name: &'a [u8],
    input: &'a [u8],
    later: &'a [u8],
}

/// The bytes up to the first that equals `byte`, and those after it.
fn cut(text: &[u8], byte: u8) -> Option<(&[u8], &[u8])>
    ensures { IfSome result (λ pieces. length pieces.1.now < length text.now) }
{
    let at = text.iter().position(|one| *one == byte)?;
    Some((&text[..at], &text[at + 1..]))
}

/// The first case of a text.
fn first_case(text: &[u8]) -> Option<Case<'_>>
    ensures { IfSome result (λ case. length case.later.now < length text.now) }
{
    let (head, bytes) = cut(text, b'\n')?;
    let (name, length) = cut(head, b' ')?;
    let length = number(length, 0).ok()?.value as usize;
    if bytes.len() <= length {
        return None;
    }
    Some(Case {
        name,
        input: &bytes[..length],
        later: &bytes[length + 1..],
    })
}

/// The cases of a text, one after the other.
#[derive(Clone, Copy, Debug, PartialEq, Eq)]
struct Cases<'a> {
    /// What is not handed out yet.
    later: &'a [u8],
}

impl<'a> Iterator for Cases<'a> {
    type Item = Case<'a>;

    ghost remaining = { λ s. at_most (length s.later.now) };

    fn next(&mut self) -> Option<Case<'a>> {
        let case = first_case(self.later)?;
        self.later = case.later;
        Some(case)
    }
}

/// Prints the name of a case and all lines of its run.
fn run_case<W: Write>(rt: &HostRuntime, case: Case<'_>, out: &mut W) -> anyhow::Result<()> {
    out.write_all(case.name)?;
    out.write_all(b"\n")?;
    Bench::open(rt.alloc(), case.input)?.print(out)?;
    Ok(())
}

fn run(rt: &HostRuntime) -> anyhow::Result<()> {
    let mut text = Vec::new(rt.alloc());
    rt.stdin().read_to_end(&mut text)?;
    let mut out = BufWriter::new(rt.alloc(), rt.stdout())?;
    let cases = Cases {
        later: text.as_slice(),
    };
    for case in cases.take(MOST_CASES) {
        run_case(rt, case, &mut out)?;
    }
    out.flush()?;
    Ok(())
}

fn main(rt: HostRuntime) -> anyhow::Result<()> {
    run(&rt)
}
