// Cells by number: whose they are and what, and what stands on a board of 81. A square is a number that its caller has tested: a
// type of its own for `OnBoard`, which three functions ask, would be made and taken apart at each call.
ghost use Rattle.std.specs.Prelude.{◌≡◌};
ghost use Rattle.squares.specs.Kinds.{colour_of, kind_of, promoted_piece};
ghost use Rattle.squares.specs.Sets.{single_s};
ghost use Rattle.position.specs.Machine.{cell_at};
ghost use Rattle.position.specs.Answers.{stood};
ghost use Rattle.position.specs.Inner.{OnBoard};

use squares::{Bitboard, Piece, Square};

// The colour and the kind of a cell: 0 of the empty one, as `colour_of` and `kind_of` have it.
#[tactic(auto, unfolding(squares::specs::Kinds::colour_of))]
pub(crate) fn color_of(cell: u8) -> u8
    ensures { result ≡ colour_of cell }
{
    match cell {
        0 => 0,
        1..=16 => 1,
        _ => 2,
    }
}

#[tactic(auto, unfolding(squares::specs::Kinds::kind_of))]
pub(crate) fn kind_of(cell: u8) -> u8
    ensures { result ≡ kind_of cell }
{
    if cell <= 16 { cell } else { cell - 16 }
}

pub(crate) fn cell(board: &[u8; Square::NUM], square: u8) -> u8
    requires { OnBoard square }
    ensures { result ≡ cell_at board.now square }
{
    board[usize::from(square - 1)]
}

#[tactic(auto, unfolding(crate::specs::Answers::stood))]
pub(crate) fn stands_on(board: &[u8; Square::NUM], square: u8) -> Option<u8>
    requires { OnBoard square }
    ensures { result ≡ stood (cell_at board.now square) }
{
    let stands = cell(board, square);
    (stands != 0).then_some(stands)
}

// 0 where the piece does not promote, as `promoted_piece` has it.
pub(crate) fn promoted(piece: u8) -> u8
    ensures { result ≡ promoted_piece piece }
{
    Piece::promote(piece).unwrap_or(None).unwrap_or(0)
}

// The empty set where there is no such square, as `single_s` has it.
pub(crate) fn single(square: u8) -> Bitboard
    ensures { result ≡ single_s square }
{
    Bitboard::single(square).unwrap_or(Bitboard::empty())
}
