// What a whole line asks for: its command with the words behind it, read.
use crate::command::Command;
use crate::edit::Edit;
use crate::lamps::Lamps;
use crate::line::{Word, is};
use crate::message::Message;
use crate::notation::{cell, color, count, kind, ply, square};

#[derive(Clone, Copy)]
pub enum Request {
    Edit(Edit),
    Sfen,
    Show,
    Lamps(Lamps),
    Numbers,
    Help,
    Quit,
    Usi,
    IsReady,
    Go,
    Nothing,
}

impl Request {
    // What is asked for, or the line that says why that cannot be read.
    pub fn read(command: Command, words: &[Word]) -> Result<Self, Message> {
        let expected = Message::Expected(command);
        match command {
            Command::Position => read_position(words),
            Command::Put | Command::Hand | Command::Side | Command::Ply => {
                read_edit(command, words).map(Request::Edit).ok_or(expected)
            }
            Command::Lamps => read_lamps(words).map(Request::Lamps).ok_or(expected),
            Command::Go => Ok(Request::Go),
            Command::Silent => Ok(Request::Nothing),
            _ if words.is_empty() => read_alone(command).ok_or(expected),
            _ => Err(expected),
        }
    }
}

// A command that stands alone. A line of moves is no request: they are made as they are read.
fn read_alone(command: Command) -> Option<Request> {
    match command {
        Command::Empty => Some(Request::Edit(Edit::Empty)),
        Command::Sfen => Some(Request::Sfen),
        Command::Show => Some(Request::Show),
        Command::Numbers => Some(Request::Numbers),
        Command::Help => Some(Request::Help),
        Command::Quit => Some(Request::Quit),
        Command::Usi => Some(Request::Usi),
        Command::IsReady => Some(Request::IsReady),
        _ => None,
    }
}

fn read_edit(command: Command, words: &[Word]) -> Option<Edit> {
    match (command, words) {
        (Command::Put, [at, what]) => {
            let square = square(at.as_slice())?;
            let cell = cell(what.as_slice())?;
            Some(Edit::Put { square, cell })
        }
        (Command::Hand, [whose, what, how_many]) => {
            let color = color(whose.as_slice())?;
            let kind = kind(what.as_slice())?;
            let count = count(how_many.as_slice())?;
            Some(Edit::Hand { color, kind, count })
        }
        (Command::Side, [whose]) => color(whose.as_slice()).map(Edit::Side),
        (Command::Ply, [number]) => ply(number.as_slice()).map(Edit::Ply),
        _ => None,
    }
}

fn read_lamps(words: &[Word]) -> Option<Lamps> {
    match words {
        [set] => Lamps::read(set.as_slice()),
        _ => None,
    }
}

// The words behind `position`, but for `startpos moves`, which begins a line of moves. A text cannot be read back yet.
fn read_position(words: &[Word]) -> Result<Request, Message> {
    match words {
        [first] if is(first, b"startpos") => Ok(Request::Edit(Edit::Startpos)),
        [first, ..] if is(first, b"sfen") => Err(Message::UnreadSfen),
        [first, second, ..] if is(first, b"startpos") && is(second, b"sfen") => {
            Err(Message::UnreadSfen)
        }
        _ => Err(Message::Expected(Command::Position)),
    }
}
