// The position, and the line that is being read: what is done when a word ends and when the line does.
use crate::Ending;
use crate::command::Command;
use crate::diagram::Diagram;
use crate::edit::Edit;
use crate::lamps::Lamps;
use crate::line::{Lead, Line, Moves, Stop, Word, Words, is};
use crate::message::{Help, Message, Numbers, USI_NAMES, say_at_once};
use crate::notation::{begins_a_move, read_move};
use crate::request::Request;
use crate::view::{Sfen, View};
use position::Position;
use std::{io, mem};

#[derive(Drop)]
pub struct Console {
    position: Position,
    line: Line,
    // The word that is being read.
    word: Word,
}

impl Console {
    pub fn new() -> Self {
        Self {
            position: Position::startpos(),
            line: Line::Blank,
            word: Word::default(),
        }
    }

    pub fn show(&self, rt: &impl Print) -> io::Result<()> {
        rt.print(View(self.position))
    }

    pub fn take(&mut self, rt: &impl Print, b: u8) -> Result<(), Ending> {
        match b {
            b'\n' => {
                self.end_word();
                self.end_line(rt)
            }
            b' ' | b'\t' | b'\r' => {
                self.end_word();
                Ok(())
            }
            _ => {
                let _ = self.word.try_push(b);
                Ok(())
            }
        }
    }

    // Obeys the word that ends here, if there is one, or keeps it.
    fn end_word(&mut self) {
        let word = mem::take(&mut self.word);
        if word.as_slice().is_empty() {
            return;
        }
        match self.line {
            Line::Blank => self.begin(word),
            Line::Unknown => {}
            Line::Command {
                command,
                ref mut words,
            } => {
                let _ = words.try_push(word);
                if command == Command::Position && is_startpos_moves(words.as_slice()) {
                    self.start(Lead::StartposMoves);
                }
            }
            Line::Moves(moves) => self.go_on(moves, word),
            Line::Stopped(ref mut stop) => stop.is_followed = true,
        }
    }

    // The first word: a command, or else a move.
    fn begin(&mut self, word: Word) {
        match Command::named(word.as_slice()) {
            Some(Command::Startpos) => self.start(Lead::Startpos),
            Some(Command::Move) => {
                self.line = Line::Moves(Moves::none_after(Lead::Move));
            }
            Some(command) => {
                self.line = Line::Command {
                    command,
                    words: Words::default(),
                };
            }
            None if begins_a_move(word.as_slice()) => {
                self.play(Moves::none_after(Lead::Nothing), word);
            }
            None => self.line = Line::Unknown,
        }
    }

    // Moves from the start position are to come.
    fn start(&mut self, lead: Lead) {
        self.position = Position::startpos();
        self.line = Line::Moves(Moves::none_after(lead));
    }

    // One more word among moves. The first behind `startpos` may be `moves`.
    fn go_on(&mut self, moves: Moves, word: Word) {
        if moves == Moves::none_after(Lead::Startpos) && is(&word, b"moves") {
            self.start(Lead::StartposMoves);
        } else {
            self.play(moves, word);
        }
    }

    fn play(&mut self, moves: Moves, word: Word) {
        match self.moved(word.as_slice()) {
            Ok(position) => {
                self.position = position;
                self.line = Line::Moves(moves.with_one_more());
            }
            Err(why) => {
                self.line = Line::Stopped(Stop {
                    moves,
                    word,
                    why,
                    is_followed: false,
                });
            }
        }
    }

    // The position after a move, or why there is none.
    fn moved(&self, word: &[u8]) -> Result<Position, Message> {
        let p = self.position;
        let m = read_move(word, p.side).ok_or(Message::Expected(Command::Move))?;
        p.make_move(m)
            .map_err(|why| Message::refused(why, Message::NoSquare))
    }

    // Answers the line that ends here; a blank one asks for nothing.
    fn end_line(&mut self, rt: &impl Print) -> Result<(), Ending> {
        match mem::replace(&mut self.line, Line::Blank) {
            Line::Blank => {}
            Line::Unknown => rt.println(Message::UnknownCommand)?,
            Line::Command { command, words } => match Request::read(command, words.as_slice()) {
                Ok(request) => self.obey(rt, request)?,
                Err(why) => rt.println(why)?,
            },
            Line::Moves(moves) if moves == Moves::none_after(Lead::Move) => {
                rt.println(Message::Expected(Command::Move))?;
            }
            Line::Moves(_) => rt.println(Message::Done)?,
            Line::Stopped(stop) => stop.say(rt)?,
        }
        Ok(())
    }

    fn obey(&mut self, rt: &impl Print, request: Request) -> Result<(), Ending> {
        match request {
            Request::Edit(edit) => self.edit(rt, edit)?,
            Request::Sfen => rt.println(Sfen::of(self.position))?,
            Request::Show => self.show(rt)?,
            Request::Lamps(lamps) => self.light(rt, lamps)?,
            Request::Numbers => say_at_once(rt, Numbers)?,
            Request::Help => say_at_once(rt, Help)?,
            Request::Quit => {
                rt.println(Message::Bye)?;
                return Err(Ending::Quit);
            }
            Request::Usi => rt.println(USI_NAMES)?,
            Request::IsReady => rt.println(Message::Ready)?,
            Request::Go => rt.println(Message::NoPlayer)?,
            Request::Nothing => {}
        }
        Ok(())
    }

    // Makes an edit, or says why it cannot be made.
    fn edit(&mut self, rt: &impl Print, edit: Edit) -> io::Result<()> {
        match edit.made(self.position) {
            Ok(position) => {
                self.position = position;
                rt.println(Message::Done)
            }
            Err(why) => rt.println(why),
        }
    }

    fn light(&self, rt: &impl Print, lamps: Lamps) -> io::Result<()> {
        match lamps.set(self.position) {
            Ok(set) => println!(rt; "{}{} lit", Diagram::lit(set), set.count()),
            Err(why) => rt.println(why),
        }
    }
}

// Whether the words behind `position` begin a line of moves.
fn is_startpos_moves(words: &[Word]) -> bool {
    matches!(words, [first, second] if is(first, b"startpos") && is(second, b"moves"))
}
