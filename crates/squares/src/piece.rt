// Cells and pieces by number: 0 an empty cell, k a black piece of kind k, 16 + k a white one. A piece is a good cell
// other than 0.
ghost use Rattle.std.specs.Prelude.{◌≡◌};
ghost use Rattle.squares.specs.Kinds.{good_piece, good_cell};
ghost use Rattle.squares.specs.Answers.{number_given, form_given, piece_answer, kind_answer, colour_answer, promoted_piece_answer, unpromoted_piece_answer};

use crate::bad_number::BadNumber;
use crate::piece_kind::PieceKind;

#[derive(Clone, Copy)]
pub struct Piece;

impl Piece {
    pub fn is_good(piece: u8) -> bool
        ensures { result ≡ good_piece piece }
    {
        matches!(piece, 1..=14 | 17..=30)
    }

    // Whether a cell may hold this number: 0, or a piece.
    #[tactic(auto, unfolding(crate::specs::Kinds::good_cell))]
    pub fn is_cell(cell: u8) -> bool
        ensures { result ≡ good_cell cell }
    {
        cell == 0 || Self::is_good(cell)
    }

    // The piece of a kind and a colour.
    #[tactic(auto, unfolding(crate::specs::Kinds::piece_of, crate::specs::Kinds::good_colour, crate::specs::Answers::piece_answer), using(crate::proofs::Numbers::kind_range, crate::proofs::Numbers::colour_none))]
    pub fn new(kind: u8, color: u8) -> Result<u8, BadNumber>
        ensures { number_given result ≡ piece_answer kind color }
    {
        if !PieceKind::is_good(kind) {
            return Err(BadNumber);
        }
        match color {
            1 => Ok(kind),
            2 => Ok(16 + kind),
            _ => Err(BadNumber),
        }
    }

    #[tactic(auto, unfolding(crate::specs::Kinds::good_kind, crate::specs::Kinds::kind_of, crate::specs::Kinds::good_piece, crate::specs::Answers::kind_answer))]
    pub fn kind(piece: u8) -> Result<u8, BadNumber>
        ensures { number_given result ≡ kind_answer piece }
    {
        match piece {
            1..=14 => Ok(piece),
            17..=30 => Ok(piece - 16),
            _ => Err(BadNumber),
        }
    }

    #[tactic(auto, unfolding(crate::specs::Kinds::colour_of, crate::specs::Kinds::good_kind, crate::specs::Kinds::kind_of, crate::specs::Kinds::good_piece, crate::specs::Answers::colour_answer))]
    pub fn color(piece: u8) -> Result<u8, BadNumber>
        ensures { number_given result ≡ colour_answer piece }
    {
        match piece {
            1..=14 => Ok(1),
            17..=30 => Ok(2),
            _ => Err(BadNumber),
        }
    }

    // The promoted piece of the same colour, or nothing where its kind does not promote. (A closure that adds would have to carry why
    // the sum fits.)
    pub fn promote(piece: u8) -> Result<Option<u8>, BadNumber>
        ensures { form_given result ≡ promoted_piece_answer piece }
    {
        if 31 < piece {
            return Err(BadNumber);
        }
        let kind = piece % 16;
        match PieceKind::promote(kind)? {
            Some(promoted) => Ok(Some(piece - kind + promoted)),
            None => Ok(None),
        }
    }

    // The unpromoted piece of the same colour; a piece that is not promoted is its own.
    pub fn unpromote(piece: u8) -> Result<u8, BadNumber>
        ensures { number_given result ≡ unpromoted_piece_answer piece }
    {
        if 31 < piece {
            return Err(BadNumber);
        }
        let kind = piece % 16;
        Ok(piece - kind + PieceKind::unpromote(kind)?)
    }
}
