// Reads case lines on standard input, and writes an answer line for each on standard output.
#![tactic(auto)]

mod answer;
mod args;
mod change_ops;
mod emit;
mod line;
mod number_ops;
mod ops;
mod positions;
mod query_ops;
mod set_ops;
mod text_ops;

use answer::Answer;
use emit::{Output, ROOM};
use line::Line;
use std::fmt;
use std::io::Read;

// What ends a run before the input does.
#[derive(Clone, Copy)]
pub enum Failure {
    Reading,
    Writing,
}

impl fmt::Display for Failure {
    fn fmt<W: fmt::Write>(&self, f: &mut fmt::Formatter<W>) -> fmt::Result {
        match self {
            Failure::Reading => write!(f, "reading failed"),
            Failure::Writing => write!(f, "writing failed"),
        }
    }
}

// A program ends with 0 whatever it does: a line on standard error says that it failed.
fn main(rt: HostRuntime) {
    if let Err(failure) = Run::new(rt).all() {
        let _ = eprintln!(rt; "cases: {failure}");
    }
}

// The line that is being read, the answer to the last one, and the answers that are not written yet.
#[derive(Drop)]
struct Run {
    rt: HostRuntime,
    line: Line,
    answer: Answer,
    output: Output,
}

impl Run {
    fn new(rt: HostRuntime) -> Self {
        Self {
            rt,
            line: Line::new(),
            answer: Answer::new(),
            output: Output::new(rt),
        }
    }

    // Nothing says that the input ends, so the turns are counted, up to a number that no run uses up.
    fn all(mut self) -> Result<(), Failure> {
        for _ in 0..u64::MAX {
            if !self.turn()? {
                break;
            }
        }
        Ok(())
    }

    // One read, and the answers to the lines that end in it: whether there may be more to read. The answers are written
    // at once: whoever sends a line and waits is answered. (`read` fills a slice, and its count lives for one line.)
    fn turn(&mut self) -> Result<bool, Failure> {
        let mut input = [0u8; ROOM];
        let n = self
            .rt
            .stdin()
            .read(&mut input)
            .map_err(|_| Failure::Reading)?;
        if n == 0 {
            self.finish()?;
        }
        self.take(&input[..n])?;
        self.output.flush()?;
        Ok(n != 0)
    }

    // After the input: a last line without a newline is a line.
    fn finish(&mut self) -> Result<(), Failure> {
        if self.line.has_begun() {
            self.end_line()?;
        }
        Ok(())
    }

    fn take(&mut self, bytes: &[u8]) -> Result<(), Failure> {
        for b in bytes {
            match b {
                b'\n' => self.end_line()?,
                _ => self.line.take(*b),
            }
        }
        Ok(())
    }

    fn end_line(&mut self) -> Result<(), Failure> {
        match self.answer_line() {
            Some(()) => self.output.put_line(self.answer.as_slice())?,
            None => self.output.put_malformed()?,
        }
        self.line.clear();
        Ok(())
    }

    fn answer_line(&mut self) -> Option<()> {
        self.answer.clear();
        ops::answer(self.line.end()?, &mut self.answer)
    }
}
