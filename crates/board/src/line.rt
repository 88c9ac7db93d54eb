// A line as far as it is read: its words are taken one by one, so that it may be as long as a game.
use crate::command::Command;
use crate::message::Message;
use arrayvec::ArrayVec;
use std::io;

// The longest name of a command has ten letters, so a word of twelve is none, and no more of it is kept or shown. (A Vec could run
// out of memory, and then a line that has an answer would get none.)
pub type Word = ArrayVec<u8, 12>;

// Whether a word is that name.
pub fn is(word: &Word, name: &[u8]) -> bool {
    word.as_slice() == name
}

// No command takes more than three words, so a fourth is one too many, and no more are kept.
pub type Words = ArrayVec<Word, 4>;

// What stands before the moves of a line.
#[derive(Clone, Copy, PartialEq, Eq)]
pub enum Lead {
    Nothing,
    Move,
    Startpos,
    StartposMoves,
}

// The moves of a line so far, which were played: what stands before them, and the number of the one to come.
#[derive(Clone, Copy, PartialEq, Eq)]
pub struct Moves {
    lead: Lead,
    number: usize,
}

impl Moves {
    pub fn none_after(lead: Lead) -> Self {
        Self { lead, number: 1 }
    }

    pub fn with_one_more(self) -> Self {
        Self {
            lead: self.lead,
            number: self.number.saturating_add(1),
        }
    }

    fn are_from_start(self) -> bool {
        matches!(self.lead, Lead::Startpos | Lead::StartposMoves)
    }

    // Where the board is after them.
    fn place(self) -> &'static str {
        if 1 < self.number {
            "the moves before it stay"
        } else if self.are_from_start() {
            "the board is at the start position"
        } else {
            "the board is as it was"
        }
    }
}

#[derive(Drop)]
pub enum Line {
    Blank,
    // The first word is neither a command nor a move.
    Unknown,
    // A command with the words behind it, which is obeyed when the line ends.
    Command { command: Command, words: Words },
    Moves(Moves),
    Stopped(Stop),
}

// A word that was refused as the next of some moves, and whether something follows it.
#[derive(Drop)]
pub struct Stop {
    pub moves: Moves,
    pub word: Word,
    pub why: Message,
    pub is_followed: bool,
}

impl Stop {
    // Says of several moves, and of any from the start, which was refused and where the board is after it.
    pub fn say(&self, rt: &impl Print) -> io::Result<()> {
        rt.println(self.why)?;
        if self.is_alone() {
            return Ok(());
        }
        print!(rt; "stopped at move {}, ", self.moves.number)?;
        // A word need not be text.
        rt.write_all(self.word.as_slice())?;
        println!(rt; ": {}", self.moves.place())
    }

    fn is_alone(&self) -> bool {
        self.moves.number <= 1 && !self.is_followed && !self.moves.are_from_start()
    }
}
