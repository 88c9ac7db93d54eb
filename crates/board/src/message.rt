// What is said in lines of their own: the answers in the words of document 01, and what else there is to say.
use crate::Ending;
use crate::command::Command;
use arrayvec::ArrayString;
use position::Refusal;
use std::fmt;
use std::fmt::Write;

#[derive(Clone, Copy, PartialEq, Eq)]
pub enum Message {
    Done,
    Refused(Refusal),
    // Refusals in words that fit the command.
    NoSquare,
    NeverHeld,
    NoPly,
    SecondKing,
    TooMany,
    UnknownCommand,
    Expected(Command),
    UnreadSfen,
    NothingThere,
    NoPlayer,
    Ready,
    Greeting,
    Bye,
}

// The order of their numbers.
const REFUSALS: [Refusal; 13] = [
    Refusal::NotSound(0),
    Refusal::BadNumber,
    Refusal::NothingThere,
    Refusal::OtherSide,
    Refusal::NoPromotedForm,
    Refusal::OwnPiece,
    Refusal::TakesKing,
    Refusal::PromotedDrop,
    Refusal::Occupied,
    Refusal::NotInHand,
    Refusal::LastPly,
    Refusal::ShortBuffer,
    Refusal::EditNotSound,
];

pub const USI_NAMES: &str = "id name Pulfredan
id author the Pulfredan developers
usiok";

const HELP_END: &str = "Moves are played up to the first that is refused. But for put, pieces may be
in either case, and so may squares: 7G7F is 7g7f, and p*5E is P*5e.";

// A refusal with the words of document 01 for its number.
fn words_of(why: Refusal) -> &'static str {
    match why {
        Refusal::NotSound(_) => "1: position not sound, with the square",
        Refusal::BadNumber => {
            "2: a number out of range: square, file, pattern, kind, colour, cell, shift, ply 0, hand kind"
        }
        Refusal::NothingThere => "3: nothing on the from square",
        Refusal::OtherSide => "4: piece is the other side's",
        Refusal::NoPromotedForm => "5: piece has no promoted form",
        Refusal::OwnPiece => "6: own piece on the to square (from equal to to included)",
        Refusal::TakesKing => "7: the move would take a king",
        Refusal::PromotedDrop => "8: drop of a promoted piece",
        Refusal::Occupied => "9: drop on an occupied square",
        Refusal::NotInHand => "10: that kind is not in hand (a king never is)",
        Refusal::LastPly => "11: ply is already 65535",
        Refusal::ShortBuffer => "12: lent buffer shorter than the text",
        Refusal::EditNotSound => "13: the edit would make the position unsound",
    }
}

impl Message {
    // Why a call refused, in other words where it refused a number.
    pub fn refused(why: Refusal, bad_number: Message) -> Self {
        match why {
            Refusal::BadNumber => bad_number,
            _ => Message::Refused(why),
        }
    }

    fn text(self) -> &'static str {
        match self {
            Message::Done => "0: done",
            Message::Refused(why) => words_of(why),
            Message::NoSquare => "2: no such square: files are 1 to 9, ranks a to i",
            Message::NeverHeld => "2: no such kind in hand: P L N S G B R are held",
            Message::NoPly => "2: no such ply: the first is 1",
            Message::SecondKing => "13: that would be a second king of one side",
            Message::TooMany => "13: that would be more of the kind than a full set has",
            Message::UnknownCommand => "unknown command: help lists them",
            Message::Expected(command) => command.form(),
            Message::UnreadSfen => {
                "position sfen is not read yet: put, hand, side and ply set a position up"
            }
            Message::NothingThere => "nothing stands there",
            Message::NoPlayer => "this board makes no moves of its own",
            Message::Ready => "readyok",
            Message::Greeting => {
                "Pulfredan, a shogi board. Moves are typed as 7g7f; help lists all, quit ends."
            }
            Message::Bye => "bye",
        }
    }
}

// In the words of document 01.
impl From<Refusal> for Message {
    fn from(why: Refusal) -> Self {
        Message::Refused(why)
    }
}

impl fmt::Display for Message {
    fn fmt<W: fmt::Write>(&self, f: &mut fmt::Formatter<W>) -> fmt::Result {
        if let Message::Expected(_) = self {
            f.write_str("expected: ")?;
        }
        f.write_str(self.text())
    }
}

// No answer of several lines has more bytes: of one that has, nothing would be said.
const ROOM: usize = 4096;

// Says lines by one write, so that a reader who takes one and leaves makes no write fail. (What is printed goes out by 1,024 bytes, which
// `help` nearly fills.)
pub fn say_at_once<D: fmt::Display + Drop>(rt: &impl Print, lines: D) -> Result<(), Ending> {
    let mut text = ArrayString::<ROOM>::new();
    write!(text, "{lines}").map_err(|_| Ending::WritingFailed)?;
    rt.write_all(text.as_bytes())?;
    Ok(())
}

// The lines of `numbers`.
#[derive(Clone, Copy)]
pub struct Numbers;

impl fmt::Display for Numbers {
    fn fmt<W: fmt::Write>(&self, f: &mut fmt::Formatter<W>) -> fmt::Result {
        write_line(f, Message::Done.text())?;
        for why in REFUSALS {
            write_line(f, words_of(why))?;
        }
        Ok(())
    }
}

// The lines of `help`.
#[derive(Clone, Copy)]
pub struct Help;

impl fmt::Display for Help {
    fn fmt<W: fmt::Write>(&self, f: &mut fmt::Formatter<W>) -> fmt::Result {
        for command in Command::LISTED {
            write_line(f, command.form())?;
        }
        write_line(f, HELP_END)
    }
}

fn write_line<W: fmt::Write>(f: &mut fmt::Formatter<W>, line: &str) -> fmt::Result {
    f.write_str(line)?;
    f.write_char('\n')
}
