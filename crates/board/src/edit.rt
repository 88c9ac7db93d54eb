// The commands that set something up.
use crate::message::Message;
use position::{Position, Refusal};
use squares::Piece;

#[derive(Clone, Copy)]
pub enum Edit {
    Startpos,
    Empty,
    Put { square: u8, cell: u8 },
    Hand { color: u8, kind: u8, count: u8 },
    Side(u8),
    Ply(u16),
}

// The kind king, a number, since a cell's kind is one.
const KING: u8 = 8;

impl Edit {
    // The position with the edit made, or why it cannot be.
    pub fn made(self, p: Position) -> Result<Position, Message> {
        match self {
            Edit::Startpos => Ok(Position::startpos()),
            Edit::Empty => Ok(Position::empty()),
            Edit::Put { square, cell } => {
                p.piece_set(square, cell).map_err(|why| not_put(why, cell))
            }
            Edit::Hand { color, kind, count } => {
                p.hand_set(color, kind, count).map_err(not_held)
            }
            Edit::Side(color) => Ok(p.side_to_move_set(color)?),
            Edit::Ply(ply) => {
                p.ply_set(ply)
                    .map_err(|why| Message::refused(why, Message::NoPly))
            }
        }
    }
}

fn not_put(why: Refusal, cell: u8) -> Message {
    match why {
        Refusal::EditNotSound if Piece::kind(cell) == Ok(KING) => Message::SecondKing,
        Refusal::EditNotSound => Message::TooMany,
        _ => Message::refused(why, Message::NoSquare),
    }
}

fn not_held(why: Refusal) -> Message {
    match why {
        Refusal::EditNotSound => Message::TooMany,
        _ => Message::refused(why, Message::NeverHeld),
    }
}
