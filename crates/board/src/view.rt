// What `show` and `sfen` print of a position.
use crate::diagram::Diagram;
use crate::notation::{MoveName, letter};
use arrayvec::ArrayVec;
use position::Position;
use sfen::write_sfen;
use squares::Color;
use std::{fmt, str};

// No text of a position has more bytes (01's bound).
const TEXT_MAX: usize = 168;

// The position's text.
#[derive(Drop)]
pub struct Sfen(ArrayVec<u8, TEXT_MAX>);

impl Sfen {
    // A position here is sound, and no text is longer: it is never refused.
    pub fn of(p: Position) -> Self {
        let mut text = ArrayVec::from([0; TEXT_MAX]);
        let length = write_sfen(p, text.as_mut_slice()).unwrap_or(0);
        text.truncate(length);
        Self(text)
    }
}

impl fmt::Display for Sfen {
    fn fmt<W: fmt::Write>(&self, f: &mut fmt::Formatter<W>) -> fmt::Result {
        f.write_str(str::from_utf8(self.0.as_slice()).map_err(|_| fmt::Error)?)
    }
}

// The board, the hands, whose move it is, the last move and the text. The pieces are read off the text, so that their letters, the case
// of these and the + are stated once, in `sfen`. Each call that asks whether the position is sound is made once.
#[derive(Clone, Copy)]
pub struct View(pub Position);

impl fmt::Display for View {
    fn fmt<W: fmt::Write>(&self, f: &mut fmt::Formatter<W>) -> fmt::Result {
        let p = self.0;
        let text = Sfen::of(p);
        let last = p.last_move().unwrap_or(None);
        Diagram::of(text.0.as_slice(), last).fmt(f)?;
        Hand::of(p, Color::BLACK).fmt(f)?;
        Hand::of(p, Color::WHITE).fmt(f)?;
        writeln!(f, "{} to move, ply {}", ColorName(p.side), p.ply)?;
        match last {
            Some(m) => writeln!(f, "Last move {}, marked *", MoveName(m))?,
            None => f.write_str("No last move\n")?,
        }
        writeln!(f, "{text}")
    }
}

#[derive(Clone, Copy)]
struct ColorName(u8);

impl fmt::Display for ColorName {
    fn fmt<W: fmt::Write>(&self, f: &mut fmt::Formatter<W>) -> fmt::Result {
        f.write_str(if self.0 == Color::BLACK {
            "Black"
        } else {
            "White"
        })
    }
}

// What a colour holds: each kind with its count, in the order of the text of a position.
#[derive(Clone, Copy)]
struct Hand {
    color: u8,
    held: [(u8, u8); 7],
}

impl Hand {
    fn of(p: Position, color: u8) -> Self {
        let held = [7, 6, 5, 4, 3, 2, 1].map(|kind| (kind, p.hand(color, kind).unwrap_or(0)));
        Self { color, held }
    }
}

impl fmt::Display for Hand {
    fn fmt<W: fmt::Write>(&self, f: &mut fmt::Formatter<W>) -> fmt::Result {
        write!(f, "{} holds", ColorName(self.color))?;
        if self.held.iter().all(|(_, count)| *count == 0) {
            f.write_str(" nothing")?;
        }
        for (kind, count) in self.held {
            let letter = letter(kind, self.color).map_err(|_| fmt::Error)?;
            match count {
                0 => {}
                1 => write!(f, " {letter}")?,
                n => write!(f, " {n}{letter}")?,
            }
        }
        f.write_str("\n")
    }
}
