// Edits of a position: one cell, one hand count, side, ply. Each makes the position that would follow; where that could be
// unsound, for its cells or its counts, it is asked.
ghost use Rattle.std.specs.Prelude.{◌≡◌, ◌&&◌};
ghost use Rattle.squares.specs.Board.{on_board};
ghost use Rattle.squares.specs.Kinds.{good_cell};
ghost use Rattle.position.specs.Answers.{answer_given};
ghost use Rattle.position.specs.Inner.{if_sound};
ghost use Rattle.position.specs.Edits.{cell_edited, hand_edited, side_edited, ply_edited};

use crate::answers::Refusal;
use crate::counts::is_ply;
use crate::hand::index;
use crate::position::{Position, with_board};
use crate::queries::is_hand;
use crate::sound::{checked, soundness};
use squares::{Color, Piece, Square};

// Whether the square is one, and the cell may stand there.
fn is_place(square: u8, cell: u8) -> bool
    ensures { result ≡ on_board 9 square && good_cell cell }
{
    Square::is_good(square) && Piece::is_cell(cell)
}

// The position that an edit makes, if it is sound.
fn if_sound(next: Position) -> Result<Position, Refusal>
    ensures { result ≡ if_sound next }
{
    match soundness(&next) {
        Ok(()) => Ok(next),
        Err(_) => Err(Refusal::EditNotSound),
    }
}

impl Position {
    pub fn piece_set(self, square: u8, cell: u8) -> Result<Position, Refusal>
        ensures { answer_given self result ≡ cell_edited self square cell }
    {
        checked(!is_place(square, cell), &self)?;
        let mut board = self.board;
        board[usize::from(square - 1)] = cell;
        if_sound(with_board(self, board))
    }

    pub fn hand_set(self, color: u8, kind: u8, count: u8) -> Result<Position, Refusal>
        ensures { answer_given self result ≡ hand_edited self color kind count }
    {
        checked(!is_hand(color, kind), &self)?;
        let mut next = self;
        next.hands[index(color, kind)] = count;
        if_sound(next)
    }

    // A good side of a sound position leaves it sound: nothing more is asked.
    pub fn side_to_move_set(self, color: u8) -> Result<Position, Refusal>
        ensures { answer_given self result ≡ side_edited self color }
    {
        checked(!Color::is_good(color), &self)?;
        let mut next = self;
        next.side = color;
        Ok(next)
    }

    // So does a good ply.
    pub fn ply_set(self, ply: u16) -> Result<Position, Refusal>
        ensures { answer_given self result ≡ ply_edited self ply }
    {
        checked(!is_ply(ply), &self)?;
        let mut next = self;
        next.ply = ply;
        Ok(next)
    }
}
