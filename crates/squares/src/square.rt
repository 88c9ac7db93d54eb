// Squares by number, 1 to 81: nine times the file less nine, plus the rank.
ghost use Rattle.std.specs.Prelude.{◌≡◌, ◌-◌};
ghost use Rattle.squares.specs.Board.{on_board};
ghost use Rattle.squares.specs.Answers.{number_if, number_given, square_answer, file_answer, rank_answer, flip_answer};

use crate::bad_number::BadNumber;

#[derive(Clone, Copy)]
pub struct Square;

impl Square {
    pub const NUM: usize = 81;

    pub fn is_good(square: u8) -> bool
        ensures { result ≡ on_board 9 square }
    {
        matches!(square, 1..=81)
    }

    #[tactic(auto, unfolding(crate::specs::Board::square_at, crate::specs::Answers::square_answer), using(crate::proofs::Steps::side_on, crate::proofs::Steps::sides_off))]
    pub fn new(file: u8, rank: u8) -> Result<u8, BadNumber>
        ensures { number_given result ≡ square_answer file rank }
    {
        match (file, rank) {
            (1..=9, 1..=9) => Ok(9 * file - 9 + rank),
            _ => Err(BadNumber),
        }
    }

    #[tactic(auto, unfolding(crate::specs::Board::file_of, crate::specs::Answers::file_answer))]
    pub fn file(square: u8) -> Result<u8, BadNumber>
        ensures { number_given result ≡ file_answer square }
    {
        Ok(Self::from_zero(square)? / 9 + 1)
    }

    #[tactic(auto, unfolding(crate::specs::Board::rank_of, crate::specs::Answers::rank_answer))]
    pub fn rank(square: u8) -> Result<u8, BadNumber>
        ensures { number_given result ≡ rank_answer square }
    {
        Ok(Self::from_zero(square)? % 9 + 1)
    }

    // The square that the other player sees in its place.
    #[tactic(auto, unfolding(crate::specs::Board::flip_to, crate::specs::Answers::flip_answer), using(crate::proofs::Steps::board_range))]
    pub fn flip(square: u8) -> Result<u8, BadNumber>
        ensures { number_given result ≡ flip_answer square }
    {
        Ok(81 - Self::from_zero(square)?)
    }

    // A good square's number counted from 0.
    #[tactic(auto, using(crate::proofs::Steps::board_range))]
    fn from_zero(square: u8) -> Result<u8, BadNumber>
        ensures { number_given result ≡ number_if (on_board 9 square) (square - 1) }
    {
        if !Self::is_good(square) {
            return Err(BadNumber);
        }
        Ok(square - 1)
    }
}
