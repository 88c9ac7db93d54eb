// Queries of a position. Each answers 2 where its numbers are bad, then 1 where the position is not sound, then its value.
ghost use Rattle.std.specs.Prelude.{◌≡◌, ◌≤◌, ◌&&◌, length};
ghost use Rattle.position.specs.Answers.{told_set_given, told_number_given, told_ply_given, told_piece_given, told_king_given, told_last_given};
ghost use Rattle.position.specs.Answers.{piece_at_answer, colour_set_answer, kind_set_answer, piece_set_answer, occupied_answer, vacant_answer};
ghost use Rattle.position.specs.Answers.{side_answer, ply_answer, good_hand_kind, hand_answer, king_at, king_answer, last_answer};
ghost use Rattle.position.specs.Inner.{mark_set};
ghost use Rattle.squares.specs.Kinds.{good_colour};
ghost use Rattle.squares.specs.Sets.{or_s};

use crate::answers::Refusal;
use crate::cells::{color_of, kind_of, stands_on};
use crate::hand::index;
use crate::mv::Move;
use crate::position::Position;
use crate::sound::{checked, soundness};
use squares::{Bitboard, Color, Piece, PieceKind, Square};

#[tactic(auto, unfolding(crate::specs::Answers::good_hand_kind))]
pub(crate) fn is_hand(color: u8, kind: u8) -> bool
    ensures { result ≡ good_colour color && good_hand_kind kind }
{
    Color::is_good(color) && matches!(kind, 1..=7)
}

// As `stands_on`: one call each, and a definition of its own.
#[tactic(auto, unfolding(crate::specs::Answers::king_at))]
fn king_at(square: u8) -> Option<u8>
    ensures { result ≡ king_at square }
{
    (square != 0).then_some(square)
}

// The set of a mark, a colour or a kind.
#[tactic(auto, using(crate::proofs::Asking::mark_at))]
fn mark_set(sets: &[Bitboard], mark: u8) -> Bitboard
    requires { (1 ≤ mark) × (mark ≤ length sets.now) }
    ensures { result ≡ mark_set sets.now mark }
{
    sets[usize::from(mark - 1)]
}

// The squares of both colours.
fn both_players(sets: &[Bitboard; Color::NUM]) -> Bitboard
    ensures { result ≡ or_s (mark_set sets.now 1) (mark_set sets.now 2) }
{
    let black = mark_set(sets, Color::BLACK);
    let white = mark_set(sets, Color::WHITE);
    black.or(white)
}

impl Position {
    pub fn piece_at(self, square: u8) -> Result<Option<u8>, Refusal>
        ensures { told_piece_given result ≡ piece_at_answer self square }
    {
        checked(!Square::is_good(square), &self)?;
        Ok(stands_on(&self.board, square))
    }

    pub fn player_bitboard(self, color: u8) -> Result<Bitboard, Refusal>
        ensures { told_set_given result ≡ colour_set_answer self color }
    {
        checked(!Color::is_good(color), &self)?;
        Ok(mark_set(&self.players, color))
    }

    pub fn piece_kind_bitboard(self, kind: u8) -> Result<Bitboard, Refusal>
        ensures { told_set_given result ≡ kind_set_answer self kind }
    {
        checked(!PieceKind::is_good(kind), &self)?;
        Ok(mark_set(&self.kinds, kind))
    }

    pub fn piece_bitboard(self, piece: u8) -> Result<Bitboard, Refusal>
        ensures { told_set_given result ≡ piece_set_answer self piece }
    {
        checked(!Piece::is_good(piece), &self)?;
        let of_color = mark_set(&self.players, color_of(piece));
        let of_kind = mark_set(&self.kinds, kind_of(piece));
        Ok(of_color.and(of_kind))
    }

    pub fn occupied_bitboard(self) -> Result<Bitboard, Refusal>
        ensures { told_set_given result ≡ occupied_answer self }
    {
        soundness(&self)?;
        Ok(both_players(&self.players))
    }

    pub fn vacant_bitboard(self) -> Result<Bitboard, Refusal>
        ensures { told_set_given result ≡ vacant_answer self }
    {
        soundness(&self)?;
        Ok(both_players(&self.players).not())
    }

    pub fn side_to_move(self) -> Result<u8, Refusal>
        ensures { told_number_given result ≡ side_answer self }
    {
        soundness(&self)?;
        Ok(self.side)
    }

    pub fn ply(self) -> Result<u16, Refusal>
        ensures { told_ply_given result ≡ ply_answer self }
    {
        soundness(&self)?;
        Ok(self.ply)
    }

    pub fn hand(self, color: u8, kind: u8) -> Result<u8, Refusal>
        ensures { told_number_given result ≡ hand_answer self color kind }
    {
        checked(!is_hand(color, kind), &self)?;
        Ok(self.hands[index(color, kind)])
    }

    pub fn king_position(self, color: u8) -> Result<Option<u8>, Refusal>
        ensures { told_king_given result ≡ king_answer self color }
    {
        checked(!Color::is_good(color), &self)?;
        Ok(king_at(if color == Color::BLACK {
            self.bking
        } else {
            self.wking
        }))
    }

    pub fn last_move(self) -> Result<Option<Move>, Refusal>
        ensures { told_last_given result ≡ last_answer self }
    {
        soundness(&self)?;
        Ok(self.last.played())
    }
}
