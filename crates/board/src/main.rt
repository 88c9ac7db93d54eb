// A shogi board to type at: reads commands on standard input, one a line, and answers each on standard output.
#![tactic(auto)]

mod command;
mod console;
mod diagram;
mod edit;
mod lamps;
mod line;
mod message;
mod notation;
mod request;
mod view;

use console::Console;
use message::Message;
use std::io;
use std::io::{IsTerminal, Read};

const CHUNK: usize = 4096;

// Why the program ends before its input does.
#[derive(Clone, Copy, PartialEq, Eq)]
pub enum Ending {
    Quit,
    ReadingFailed,
    WritingFailed,
}

// What is read has an error of its own, so this is one of writing.
impl From<io::Error> for Ending {
    fn from(_error: io::Error) -> Self {
        Ending::WritingFailed
    }
}

// The program ends with 0 whatever it does: a line on standard error says that it failed.
fn main(rt: HostRuntime) {
    let _ = match run(&rt) {
        Err(Ending::ReadingFailed) => rt.eprintln("board: reading failed"),
        Err(Ending::WritingFailed) => rt.eprintln("board: writing failed"),
        Err(Ending::Quit) | Ok(()) => Ok(()),
    };
}

// Nothing says that the input ends, so the turns are counted, up to a number that no run uses up.
fn run(rt: &HostRuntime) -> Result<(), Ending> {
    let typed = rt.stdin().is_terminal();
    let mut console = Console::new();
    if typed {
        rt.println(Message::Greeting)?;
        console.show(rt)?;
    }
    for _ in 0..u64::MAX {
        if typed {
            rt.print("> ")?;
        }
        if !turn(rt, &mut console)? {
            return finish(rt, &mut console, typed);
        }
    }
    Ok(())
}

// One read, and the answers to the lines that end in it; whether there was anything to read. What a read that failed cut short is
// no line. (`read` fills a slice, and its count lives for this function.)
fn turn(rt: &HostRuntime, console: &mut Console) -> Result<bool, Ending> {
    let mut input = [0u8; CHUNK];
    let n = rt
        .stdin()
        .read(&mut input)
        .map_err(|_| Ending::ReadingFailed)?;
    for b in &input[..n] {
        console.take(rt, *b)?;
    }
    Ok(0 < n)
}

// After the input: a last line without a newline is a line.
fn finish(rt: &HostRuntime, console: &mut Console, typed: bool) -> Result<(), Ending> {
    console.take(rt, b'\n')?;
    if typed {
        rt.println(Message::Bye)?;
    }
    Ok(())
}
