// Moves, as calls speak of them and as a position stores them.
ghost use Rattle.std.specs.Prelude.{◌≡◌};
ghost use Rattle.position.specs.Machine.{no_move};
ghost use Rattle.position.specs.Sound.{good_last};
ghost use Rattle.position.specs.Answers.{last_move};
ghost use Rattle.position.specs.Moves.{bad_move, numbers_of};

use squares::{Piece, Square};

#[derive(Clone, Copy)]
pub enum Move {
    Normal { from: u8, to: u8, promote: bool },
    Drop { piece: u8, to: u8 },
}

// A stored last move: 0 0 0 0 for none, 1 from to promote, 2 piece to 0. Numbers only, so that whatever a caller lends is
// a value, and a bad one makes the position unsound.
#[repr(C)]
#[derive(Clone, Copy)]
pub struct MoveNumbers {
    pub tag: u8,
    pub a: u8,
    pub b: u8,
    pub promote: u8,
}

impl MoveNumbers {
    pub fn none() -> Self
        ensures { result ≡ no_move }
    {
        Self {
            tag: 0,
            a: 0,
            b: 0,
            promote: 0,
        }
    }

    // The move that was stored, if there is one.
    #[tactic(auto, unfolding(crate::specs::Answers::last_move))]
    pub(crate) fn played(self) -> Option<Move>
        ensures { result ≡ last_move self }
    {
        let to = self.b;
        match self.tag {
            1 => Some(Move::Normal {
                from: self.a,
                to,
                promote: self.promote == 1,
            }),
            2 => Some(Move::Drop { piece: self.a, to }),
            _ => None,
        }
    }

    // Whether it is none, or has good numbers.
    #[tactic(auto, unfolding(crate::specs::Sound::good_last))]
    pub(crate) fn is_good(self) -> bool
        ensures { result ≡ good_last self }
    {
        match self.tag {
            0 => self.a == 0 && self.b == 0 && self.promote == 0,
            1 => Square::is_good(self.a) && Square::is_good(self.b) && self.promote <= 1,
            2 => Piece::is_good(self.a) && Square::is_good(self.b) && self.promote == 0,
            // No such tag. (One `matches!` with a guard would be no plainer: each tag has its own test.)
            _ => false,
        }
    }
}

impl From<Move> for MoveNumbers {
    ghost from_gives = { λ m numbers. numbers ≡ numbers_of m };

    #[tactic(auto, unfolding(crate::specs::Moves::numbers_of))]
    fn from(m: Move) -> Self {
        match m {
            Move::Normal { from, to, promote } => Self {
                tag: 1,
                a: from,
                b: to,
                promote: u8::from(promote),
            },
            Move::Drop { piece, to } => Self {
                tag: 2,
                a: piece,
                b: to,
                promote: 0,
            },
        }
    }
}

// Whether a number of the move is out of range.
#[tactic(auto, unfolding(crate::specs::Moves::bad_move))]
pub(crate) fn bad_move(m: Move) -> bool
    ensures { result ≡ bad_move m }
{
    match m {
        Move::Normal { from, to, .. } => !(Square::is_good(from) && Square::is_good(to)),
        Move::Drop { piece, to } => !(Piece::is_good(piece) && Square::is_good(to)),
    }
}
