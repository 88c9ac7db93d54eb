// The board as a person sees it: files 9 to 1 above, ranks a to i at the side.
use arrayvec::ArrayVec;
use position::Move;
use squares::{Bitboard, Square};
use std::{fmt, str};

// A place is three letters wide: + or a space, the letter, and * or a space.
#[derive(Clone, Copy)]
struct Place {
    is_promoted: bool,
    letter: u8,
    is_marked: bool,
}

impl Place {
    fn text(self) -> [u8; 3] {
        [
            if self.is_promoted { b'+' } else { b' ' },
            self.letter,
            if self.is_marked { b'*' } else { b' ' },
        ]
    }
}

// The places in reading order: rank a from file 9 to file 1, then rank b, and so on.
#[derive(Clone, Copy)]
pub struct Diagram {
    places: [Place; Square::NUM],
}

impl Diagram {
    const VACANT: Self = Self {
        places: [Place {
            is_promoted: false,
            letter: b'.',
            is_marked: false,
        }; Square::NUM],
    };

    // The pieces as a position's text has them, which stand before its first space, with the squares marked that the last move left
    // and reached.
    pub fn of(text: &[u8], last: Option<Move>) -> Self {
        let mut diagram = Self::VACANT;
        let mut at = 0;
        for &b in text {
            if b == b' ' {
                break;
            }
            at = diagram.draw(at, b);
        }
        match last {
            Some(Move::Normal { from, to, .. }) => {
                diagram.mark(from);
                diagram.mark(to);
            }
            Some(Move::Drop { to, .. }) => diagram.mark(to),
            None => {}
        }
        diagram
    }

    // One byte of the text, before which so many places were passed; how many are passed after it. A digit passes vacant places, a
    // slash none.
    fn draw(&mut self, at: usize, b: u8) -> usize {
        match b {
            b'1'..=b'9' => at.saturating_add(usize::from(b - b'0')),
            b'+' => {
                if let Some(place) = self.places.get_mut(at) {
                    place.is_promoted = true;
                }
                at
            }
            b'A'..=b'z' => {
                if let Some(place) = self.places.get_mut(at) {
                    place.letter = b;
                }
                at.saturating_add(1)
            }
            _ => at,
        }
    }

    fn mark(&mut self, square: u8) {
        if let Some(place) = self.place(square) {
            place.is_marked = true;
        }
    }

    // A set of squares as lamps: o where one is lit.
    pub fn lit(set: Bitboard) -> Self {
        let mut diagram = Self::VACANT;
        for square in 1..=81u8 {
            if set.contains(square) == Ok(true) {
                diagram.light(square);
            }
        }
        diagram
    }

    fn light(&mut self, square: u8) {
        if let Some(place) = self.place(square) {
            place.letter = b'o';
        }
    }

    fn place(&mut self, square: u8) -> Option<&mut Place> {
        match square {
            1..=81 => {
                let i = usize::from(square - 1);
                self.places.get_mut(9 * (i % 9) + 8 - i / 9)
            }
            _ => None,
        }
    }
}

// The line of a rank: its nine places, and its letter.
fn line(rank: &[Place], letter: u8) -> ArrayVec<u8, 30> {
    let mut line = ArrayVec::new();
    for place in rank {
        let _ = line.try_extend_from_slice(&place.text());
    }
    let _ = line.try_extend_from_slice(&[b' ', letter, b'\n']);
    line
}

impl fmt::Display for Diagram {
    // A line at a time: letter by letter it would cost twice as much.
    fn fmt<W: fmt::Write>(&self, f: &mut fmt::Formatter<W>) -> fmt::Result {
        f.write_str(" 9  8  7  6  5  4  3  2  1\n")?;
        for (rank, letter) in self.places.chunks(9).zip(b'a'..=b'i') {
            let line = line(rank, letter);
            f.write_str(str::from_utf8(line.as_slice()).map_err(|_| fmt::Error)?)?;
        }
        Ok(())
    }
}
