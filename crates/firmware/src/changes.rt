// Moves and edits of a lent position, in place: `Leaves` says what the call by value answers, and that a refusal leaves every field.
ghost use Rattle.position.specs.Answers.{answer_given};
ghost use Rattle.position.specs.Moves.{move_played};
ghost use Rattle.position.specs.Edits.{cell_edited, hand_edited, side_edited, ply_edited};
ghost use Rattle.lent.specs.InPlace.{Leaves};

use lent::make_move_in_place;
use position::{Move, Position, Refusal, Told};

#[unsafe(no_mangle)]
pub extern "C" fn pulfredan_make_normal(p: &mut Position, from: u8, to: u8, promote: bool) -> Told
    ensures { Leaves (move_played p.old (Move.Normal from to promote)) p.old result p.new }
{
    let m = Move::Normal { from, to, promote };
    Told::from(make_move_in_place(p, m))
}

#[unsafe(no_mangle)]
pub extern "C" fn pulfredan_make_drop(p: &mut Position, piece: u8, to: u8) -> Told
    ensures { Leaves (move_played p.old (Move.Drop piece to)) p.old result p.new }
{
    let m = Move::Drop { piece, to };
    Told::from(make_move_in_place(p, m))
}

#[unsafe(no_mangle)]
pub extern "C" fn pulfredan_piece_set(p: &mut Position, square: u8, cell: u8) -> Told
    ensures { Leaves (cell_edited p.old square cell) p.old result p.new }
{
    leave(p, (*p).piece_set(square, cell))
}

#[unsafe(no_mangle)]
pub extern "C" fn pulfredan_hand_set(p: &mut Position, color: u8, kind: u8, count: u8) -> Told
    ensures { Leaves (hand_edited p.old color kind count) p.old result p.new }
{
    leave(p, (*p).hand_set(color, kind, count))
}

#[unsafe(no_mangle)]
pub extern "C" fn pulfredan_side_to_move_set(p: &mut Position, color: u8) -> Told
    ensures { Leaves (side_edited p.old color) p.old result p.new }
{
    leave(p, (*p).side_to_move_set(color))
}

#[unsafe(no_mangle)]
pub extern "C" fn pulfredan_ply_set(p: &mut Position, ply: u16) -> Told
    ensures { Leaves (ply_edited p.old ply) p.old result p.new }
{
    leave(p, (*p).ply_set(ply))
}

// The position that an edit made takes the place of the lent one.
fn leave(p: &mut Position, made: Result<Position, Refusal>) -> Told
    ensures { Leaves (answer_given p.old made) p.old result p.new }
{
    match made {
        Ok(next) => {
            *p = next;
            Told::from(Ok(()))
        }
        Err(refusal) => Told::from(refusal),
    }
}
