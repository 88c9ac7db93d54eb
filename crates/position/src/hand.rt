// The two hands: Black's counts of the kinds 1 to 7, then White's. Hands, side and piece are passed as `held` and `spent` have them.
ghost use Rattle.std.specs.Prelude.{◌≡◌, ◌≤◌, ◌<◌, get_or};
ghost use Rattle.squares.specs.Kinds.{kind_of, hand_kind};
ghost use Rattle.position.specs.Answers.{hand_at};
ghost use Rattle.position.specs.Moves.{held, spent};
ghost use Rattle.position.specs.Plans.{RoomFor, Holds};

use crate::cells::kind_of;
use squares::PieceKind;

// The kind as which a cell's piece is held, 0 where it is not, as `hand_kind` of squares has it. (A match, so that the edit
// `taken_promoted` is wrong at the promoted pieces alone.)
pub(crate) fn hand_kind(cell: u8) -> u8
    ensures { result ≡ hand_kind (kind_of cell) }
{
    match PieceKind::hand_kind(kind_of(cell)).unwrap_or(None) {
        Some(kind) => kind,
        None => 0,
    }
}

// Where the count of a kind, 1 to 7, stands.
#[tactic(auto, unfolding(crate::specs::Answers::hand_at))]
pub(crate) fn index(side: u8, kind: u8) -> usize
    requires { (1 ≤ side) × (side ≤ 2) × (1 ≤ kind) × (kind ≤ 7) }
    ensures { (result ≡ hand_at side kind) × (result < 14) }
{
    usize::from((side - 1) * 7 + (kind - 1))
}

// How many of `piece` are in hand. Of a kind above 7, which no hand holds and `index` is not asked for, it is what stands at
// that place: such a drop is refused before the count is looked at. Behind the last it is 0, as `get_or` has it.
#[tactic(auto, unfolding(crate::specs::Answers::hand_at))]
pub(crate) fn in_hand(hands: [u8; 14], side: u8, piece: u8) -> u8
    requires { (1 ≤ side) × (side ≤ 2) × (1 ≤ kind_of piece) }
    ensures { result ≡ get_or hands (hand_at side (kind_of piece)) 0 }
{
    let kind = kind_of(piece);
    let at = usize::from(side - 1) * 7 + usize::from(kind - 1);
    hands.get(at).copied().unwrap_or(0)
}

// The hands with what stood on a cell, unpromoted, in that of `side`.
#[tactic(auto, unfolding(crate::specs::Moves::held))]
pub(crate) fn hold(hands: [u8; 14], side: u8, taken: u8) -> [u8; 14]
    requires { RoomFor hands side taken }
    ensures { result ≡ held side taken hands }
{
    let kind = hand_kind(taken);
    if kind == 0 {
        return hands;
    }
    let at = index(side, kind);
    let mut out = hands;
    out[at] += 1;
    out
}

#[tactic(auto, unfolding(crate::specs::Moves::spent))]
pub(crate) fn spend(hands: [u8; 14], side: u8, piece: u8) -> [u8; 14]
    requires { Holds hands side piece }
    ensures { result ≡ spent side piece hands }
{
    let kind = kind_of(piece);
    let at = index(side, kind);
    let mut out = hands;
    out[at] -= 1;
    out
}
