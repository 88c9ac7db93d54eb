// The command `lamps`: a set of squares, lit.
use crate::message::Message;
use crate::notation::{kind, square};
use position::Position;
use squares::{Bitboard, Color};

#[derive(Clone, Copy)]
pub enum Lamps {
    Player(u8),
    Kind(u8),
    Occupied,
    Vacant,
    // All pieces like the one on a square.
    LikeAt(u8),
}

impl Lamps {
    pub fn read(word: &[u8]) -> Option<Self> {
        match word {
            b"black" => Some(Lamps::Player(Color::BLACK)),
            b"white" => Some(Lamps::Player(Color::WHITE)),
            b"occupied" => Some(Lamps::Occupied),
            b"vacant" => Some(Lamps::Vacant),
            _ => match kind(word) {
                Some(kind) => Some(Lamps::Kind(kind)),
                None => square(word).map(Lamps::LikeAt),
            },
        }
    }

    // The squares that are lit, or why there are none to light.
    pub fn set(self, p: Position) -> Result<Bitboard, Message> {
        let set = match self {
            Lamps::Player(color) => p.player_bitboard(color)?,
            Lamps::Kind(kind) => p.piece_kind_bitboard(kind)?,
            Lamps::Occupied => p.occupied_bitboard()?,
            Lamps::Vacant => p.vacant_bitboard()?,
            Lamps::LikeAt(square) => like_at(p, square)?,
        };
        Ok(set)
    }
}

fn like_at(p: Position, square: u8) -> Result<Bitboard, Message> {
    let piece = p
        .piece_at(square)
        .map_err(|why| Message::refused(why, Message::NoSquare))?
        .ok_or(Message::NothingThere)?;
    Ok(p.piece_bitboard(piece)?)
}
