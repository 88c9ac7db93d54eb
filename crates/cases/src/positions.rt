// Sets, moves and positions among the numbers of a line and of an answer.
use crate::answer::{Answer, Value};
use crate::args::Arg;
use position::{Move, MoveNumbers, Position};
use squares::Bitboard;
use std::slice::Iter;

impl Arg for Bitboard {
    fn take(rest: &mut Iter<'_, u64>) -> Option<Self> {
        Some(Bitboard {
            lo: u64::take(rest)?,
            hi: u64::take(rest)?,
        })
    }
}

impl Value for Bitboard {
    const COUNT: usize = 2;

    fn put(self, answer: &mut Answer) -> Option<()> {
        answer.push(self.lo)?;
        answer.push(self.hi)
    }
}

// A square, and the set without it.
impl Value for (u8, Bitboard) {
    const COUNT: usize = 3;

    fn put(self, answer: &mut Answer) -> Option<()> {
        let (square, rest) = self;
        square.put(answer)?;
        rest.put(answer)
    }
}

impl Arg for Move {
    fn take(rest: &mut Iter<'_, u64>) -> Option<Self> {
        match rest.next()? {
            1 => Some(Move::Normal {
                from: u8::take(rest)?,
                to: u8::take(rest)?,
                promote: bool::take(rest)?,
            }),
            2 => drop_of(rest),
            _ => None,
        }
    }
}

// The fourth number of a drop says nothing, and is 0.
fn drop_of(rest: &mut Iter<'_, u64>) -> Option<Move> {
    let piece = u8::take(rest)?;
    let to = u8::take(rest)?;
    match rest.next()? {
        0 => Some(Move::Drop { piece, to }),
        _ => None,
    }
}

impl Value for Move {
    const COUNT: usize = 4;

    fn put(self, answer: &mut Answer) -> Option<()> {
        match self {
            Move::Normal { from, to, promote } => [1, from, to, u8::from(promote)].put(answer),
            Move::Drop { piece, to } => [2, piece, to, 0].put(answer),
        }
    }
}

impl Arg for MoveNumbers {
    fn take(rest: &mut Iter<'_, u64>) -> Option<Self> {
        Some(MoveNumbers {
            tag: u8::take(rest)?,
            a: u8::take(rest)?,
            b: u8::take(rest)?,
            promote: u8::take(rest)?,
        })
    }
}

impl Arg for Position {
    fn take(rest: &mut Iter<'_, u64>) -> Option<Self> {
        let board = Arg::take(rest)?;
        let players = Arg::take(rest)?;
        let kinds = Arg::take(rest)?;
        let bking = u8::take(rest)?;
        let wking = u8::take(rest)?;
        let hands = Arg::take(rest)?;
        let side = u8::take(rest)?;
        let ply = u16::take(rest)?;
        let last = MoveNumbers::take(rest)?;
        Some(Position {
            board,
            hands,
            bking,
            wking,
            side,
            last,
            ply,
            players,
            kinds,
        })
    }
}

impl Value for Position {
    const COUNT: usize = 135;

    fn put(self, answer: &mut Answer) -> Option<()> {
        self.board.put(answer)?;
        answer.put_all(&self.players)?;
        answer.put_all(&self.kinds)?;
        [self.bking, self.wking].put(answer)?;
        self.hands.put(answer)?;
        self.side.put(answer)?;
        self.ply.put(answer)?;
        let last = self.last;
        [last.tag, last.a, last.b, last.promote].put(answer)
    }
}
