//! The printed lines of a run, one by one.
ghost use Rattle.std.specs.Prelude.{◌≡◌, ◌+◌, ◌-◌, ◌*◌, ◌<◌, ◌≤◌, length, max, MatchOption, IfOk, IfSome, OnOk, OnErr};
ghost use Rattle.bench.specs.Lines.{left_at, lines_left, IsOver};

use crate::ending::Ending;
use board::boards::Board;
use device::shift::Shift;
use device::split::Split;
use lines::fitted;
use panel::Panel;
use refusal::kinds::{Failure, Fault, Refusal};
use sheet::Sheet;
use sheet::judging::judge;
use std::alloc::{AllocError, Global};
use std::io::{self, Write};
use thiserror::Error;

/// How many bytes of its input a run reads at most.
pub const LONGEST_INPUT: usize = 65_536;

/// How many bytes a buffer has that is long enough for whatever one call of `next` writes.
pub const LONGEST_LINE: usize = 4096;

/// How many calls of `next` write something at most: the line and the notes of each cycle that a run sheet may ask for, and the
/// last line.
pub const MOST_LINES: u32 = 200_001;

/// From which port on the panel is served.
const PANEL_PORTS: u32 = 4096;

/// The sheet, and the panel from port 4,096 on.
type BenchDevice<'t> = Split<Sheet<'t>, Shift<Panel>>;

/// What is printed next.
#[derive(Clone, Copy, Debug, PartialEq, Eq)]
enum Stage {
    /// The line of a cycle, whose step comes after it.
    Line,
    /// The notes of the step that was done last.
    Notes,
    /// The last line.
    Last(Ending),
    /// Nothing any more.
    Over,
}

/// Why the lines of a run were not all printed.
#[derive(Debug, Drop, Error)]
pub enum PrintError {
    /// A line is longer than the longest that is thought of.
    #[error("a line is longer than its buffer")]
    Line(Fault),
    /// The output failed.
    #[error("{0}")]
    Output(io::Error),
}

/// A board with its device, and how far its run has come.
#[derive(Drop)]
pub struct Bench<'t> {
    board: Board,
    device: BenchDevice<'t>,
    cycles: u32,
    stage: Stage,
}

/// The sheet whose pairs stand in a text from a place on, and a new panel.
fn device_over(text: &[u8], from: usize) -> BenchDevice<'_> {
    let panel = Shift::new(PANEL_PORTS, Panel::new());
    Split::new(PANEL_PORTS, Sheet::new(text, from), panel)
}

impl<'t> Bench<'t> {
    /// Opens the run of an input: a drawing and then a run sheet, of which the first 65,536 bytes count.
    pub fn open(heap: Global, input: &'t [u8]) -> Result<Bench<'t>, AllocError> {
        let text = &input[0..input.len().min(LONGEST_INPUT)];
        let mut board = Board::new(heap);
        match board.load(heap, text) {
            Ok((_, from)) => Ok(Bench::with_sheet(board, text, from)),
            Err(Failure::Refused(fault)) => Ok(Bench::refused(board, fault)),
            Err(Failure::NoMemory) => Err(AllocError),
        }
    }

    /// The run of a loaded board by the run sheet that stands in a text from a place on.
    fn with_sheet(board: Board, text: &'t [u8], from: usize) -> Bench<'t> {
        match judge(text, from) {
            Ok(run) => Bench {
                board,
                device: device_over(text, run.pairs),
                cycles: run.cycles,
                stage: before_cycle(0, run.cycles),
            },
            Err(fault) => Bench::refused(board, fault),
        }
    }

    /// A run that ends before its first cycle.
    fn refused(board: Board, fault: Fault) -> Bench<'t> {
        Bench {
            board,
            device: device_over(&[], 0),
            cycles: 0,
            stage: Stage::Last(Ending::AtByte(fault)),
        }
    }

    /// Writes what is printed next, and answers its length, or nothing once all is printed. A buffer that is too short is
    /// left as it was, and the same comes again.
    pub fn next(&mut self, out: &mut [u8]) -> Result<Option<usize>, Fault>
        ensures within { IfOk result (λ written. IfSome written (λ n. n ≤ length out.old)) }
        ensures fewer { IfOk result (λ written. MatchOption written (IsOver self.new) (λ _. lines_left self.new < lines_left self.old)) }
        ensures kept { OnErr result (out.new ≡ out.old) }
        ensures again { OnErr result (self.new ≡ self.old) }
    {
        match self.stage {
            Stage::Line => {
                let length = self.board.line(out)?;
                self.stage = self.step();
                Ok(Some(length))
            }
            Stage::Notes => {
                let length = self.board.notes(out)?;
                self.stage = before_cycle(self.board.cycle(), self.cycles);
                Ok(Some(length))
            }
            Stage::Last(ending) => {
                let length = fitted(out, |page| ending.write(page)).map_err(
                    |needed| Refusal::BufferShort(needed).at(0),
                )?;
                self.stage = Stage::Over;
                Ok(Some(length))
            }
            Stage::Over => Ok(None),
        }
    }

    /// Prints all lines that are left.
    pub fn print<W: Write>(&mut self, out: &mut W) -> Result<(), PrintError>
        ensures { OnOk result (IsOver self.new) }
    {
        let mut line = [0; LONGEST_LINE];
        while let Some(length) = self.next(&mut line).map_err(PrintError::Line)? {
            out.write_all(&line[..length]).map_err(PrintError::Output)?;
        }
        Ok(())
    }

    /// Does the step of a cycle, and tells what is printed after it.
    fn step(&mut self) -> Stage
        ensures cycles { self.new.cycles ≡ self.old.cycles }
        ensures fewer { left_at result (self.new.cycles - self.new.board.cycle) < max (2 * (self.old.cycles - self.old.board.cycle) + 1) 3 }
    {
        let cycle = self.board.cycle();
        match self.board.step(&mut self.device) {
            Ok(()) => Stage::Notes,
            Err(fault) => Stage::Last(match self.board.name_at(fault.place) {
                Some(name) => Ending::InCycle(fault.refusal, name, cycle),
                None => Ending::AtByte(fault),
            }),
        }
    }
}

/// What is printed before a cycle: its line, or the last line once all cycles are done.
fn before_cycle(cycle: u32, cycles: u32) -> Stage
    ensures { left_at result (cycles - cycle) < 2 * (cycles - cycle) + 2 }
{
    if cycle < cycles {
        Stage::Line
    } else {
        Stage::Last(Ending::Done(cycles))
    }
}
