// The calls that hand a position back: the moves, ops 34 and 49, and the edits, ops 35 to 38. Ops by number: see ops.rt.
ghost use Rattle.std.specs.Prelude.{◌≡◌};
ghost use Rattle.position.specs.Answers.{answer_given};

use crate::answer::{Answer, Value};
use crate::args::{Arg, parse};
use lent::make_move_through;
use position::{Position, Refusal};

pub fn answer(op: u64, args: &[u64], answer: &mut Answer) -> Option<()> {
    match op {
        34 => change(args, answer, Position::make_move),
        35 => change(args, answer, |p, (square, cell)| {
            p.piece_set(square, cell)
        }),
        36 => change(args, answer, |p, (color, kind, count)| {
            p.hand_set(color, kind, count)
        }),
        37 => change(args, answer, Position::side_to_move_set),
        38 => change(args, answer, Position::ply_set),
        // As 34, through a lent position.
        49 => change(args, answer, make_move_through),
        _ => None,
    }
}

fn change<A: Arg, F: Fn(Position, A) -> Result<Position, Refusal>>(
    args: &[u64],
    answer: &mut Answer,
    call: F,
) -> Option<()>
    requires { F.IsAlwaysCallable call }
{
    let (given, value) = parse(args)?;
    let changed = call(given, value);
    answer.put_result(changed.map(|_| ()))?;
    after(given, changed).put(answer)
}

// The position after a call: where it was refused, as given.
pub fn after(given: Position, changed: Result<Position, Refusal>) -> Position
    ensures { result ≡ (answer_given given changed).position }
{
    changed.unwrap_or(given)
}
