// What a move will do, in numbers: known before the position is copied, so that the copy is changed in place.
ghost use Rattle.std.specs.Prelude.{◌≡◌};
ghost use Rattle.position.specs.Moves.{arriving};
ghost use Rattle.position.specs.Plans.{normal_plan, drop_plan};

use crate::cells::promoted;
use crate::mv::{Move, MoveNumbers};

// `left` leaves `from`, `taken` leaves `to`, `piece` comes to `to`.
#[derive(Clone, Copy)]
pub struct Plan {
    pub from: u8,
    pub to: u8,
    pub left: u8,
    pub taken: u8,
    pub piece: u8,
    pub hands: [u8; 14],
    pub last: MoveNumbers,
}

// The piece that arrives: promoted if asked.
#[tactic(auto, unfolding(crate::specs::Moves::arriving))]
fn arrival(promote: bool, piece: u8) -> u8
    ensures { result ≡ arriving promote piece }
{
    if promote { promoted(piece) } else { piece }
}

// The piece goes to a square where `target` stands; `hands` are those after it.
#[tactic(auto, unfolding(crate::specs::Plans::normal_plan))]
pub(crate) fn normal_plan(
    from: u8,
    to: u8,
    promote: bool,
    piece: u8,
    target: u8,
    hands: [u8; 14],
) -> Plan
    ensures { result ≡ normal_plan from to promote piece target hands }
{
    let last = MoveNumbers::from(Move::Normal { from, to, promote });
    Plan {
        from,
        to,
        left: piece,
        taken: target,
        piece: arrival(promote, piece),
        hands,
        last,
    }
}

// The piece comes to an empty square, which nothing leaves.
#[tactic(auto, unfolding(crate::specs::Plans::drop_plan))]
pub(crate) fn drop_plan(piece: u8, to: u8, hands: [u8; 14]) -> Plan
    ensures { result ≡ drop_plan piece to hands }
{
    let last = MoveNumbers::from(Move::Drop { piece, to });
    Plan {
        from: to,
        to,
        left: 0,
        taken: 0,
        piece,
        hands,
        last,
    }
}
