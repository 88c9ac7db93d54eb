// The position lent by its owner and changed in place: a thin entry over the move by value.
#![tactic(auto)]

ghost use Rattle.std.specs.Prelude.{◌≡◌};
ghost use Rattle.lent.specs.InPlace.{Leaves};
ghost use Rattle.position.specs.Answers.{told_given, answer_given};
ghost use Rattle.position.specs.Moves.{move_played};

use position::{Move, Position, Refusal};

pub fn make_move_in_place(p: &mut Position, m: Move) -> Result<(), Refusal>
    ensures { Leaves (move_played p.old m) p.old (told_given result) p.new }
{
    *p = (*p).make_move(m)?;
    Ok(())
}

// By value again, for a caller in Rattle: a local is lent, and handed back as the call left it.
pub fn make_move_through(p: Position, m: Move) -> Result<Position, Refusal>
    ensures { answer_given p result ≡ move_played p m }
{
    let mut lent = p;
    make_move_in_place(&mut lent, m)?;
    Ok(lent)
}
