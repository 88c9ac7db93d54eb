// The faults that are no cell's, read off sets that are known to be those of the cells: kings, counts, side, ply, last move.
ghost use Rattle.std.specs.Prelude.{◌≡◌, ◌<◌, ◌||◌, not};
ghost use Rattle.squares.specs.Kinds.{kind_row, good_colour};
ghost use Rattle.position.specs.Sound.{any_below, king_wrong, good_ply, good_last, fault_elsewhere};
ghost use Rattle.position.specs.Inner.{Tidy, king_off, promoted_at, over_by_sets};

use crate::mv::MoveNumbers;
use crate::position::Position;
use squares::{Bitboard, Color, PieceKind};

// Whether the squares of a king are others than just `king`: none where that is 0.
fn king_wrong(set: Bitboard, king: u8) -> bool
    ensures { result ≡ king_off set king }
{
    match set.pop() {
        Some((n, rest)) => n != king || !rest.is_empty(),
        None => king != 0,
    }
}

// Where the set of a hand kind's promoted form stands among the fourteen; its own where it has none. (`as` loses nothing of a kind.)
fn promoted_index(j: usize) -> usize
    requires { j < 7 }
    ensures { (result ≡ promoted_at j) × (result < 14) }
{
    match PieceKind::promote((j + 1) as u8).unwrap_or(None) {
        Some(promoted) => usize::from(promoted - 1),
        None => j,
    }
}

// How many pieces of a kind there are: 0 of no kind, as the row of a number that is none has it.
fn full_set(kind: u8) -> u16
    ensures { result ≡ (kind_row kind).limit }
{
    u16::from(PieceKind::limit(kind).unwrap_or(0))
}

// Whether board and hands hold more of some kind than a full set has.
fn over_limit(kinds: &[Bitboard; PieceKind::NUM], hands: &[u8; 14]) -> bool
    ensures { result ≡ any_below (over_by_sets kinds.now hands.now) 7 }
{
    // By index: kind j + 1 stands at j of the sets, its promoted form at another place, and its counts at j and j + 7 of the hands.
    // A chain of the four would be no plainer. (`as` as in `promoted_index`.)
    for j in 0..7usize {
        let plain = kinds[j];
        let promoted = kinds[promoted_index(j)];
        let standing = u16::from(plain.or(promoted).count());
        let held = u16::from(hands[j]) + u16::from(hands[j + 7]);
        if full_set((j + 1) as u8) < standing + held {
            return true;
        }
    }
    false
}

// A ply's place holds no number above the last.
#[tactic(auto, unfolding(crate::specs::Sound::good_ply, crate::specs::Sound::top_ply))]
pub(crate) fn is_ply(ply: u16) -> bool
    ensures { result ≡ good_ply ply }
{
    1 <= ply
}

// Whether a king square is not that of its king.
#[tactic(auto, using(crate::proofs::Tidiness::black_off, crate::proofs::Tidiness::white_off))]
fn kings_off(p: &Position) -> bool
    requires { Tidy p.now }
    ensures { result ≡ king_wrong p.now.board 8 p.now.bking || king_wrong p.now.board 24 p.now.wking }
{
    let kings = p.kinds[7];
    king_wrong(p.players[0].and(kings), p.bking) || king_wrong(p.players[1].and(kings), p.wking)
}

// Whether side, ply or last move is out of its range.
fn out_of_range(side: u8, ply: u16, last: MoveNumbers) -> bool
    ensures { result ≡ not (good_colour side) || (not (good_ply ply) || not (good_last last)) }
{
    !Color::is_good(side) || !is_ply(ply) || !last.is_good()
}

// Whether the fault lies elsewhere than in a cell, where the sets are those of the cells.
#[tactic(auto, using(crate::proofs::Tidiness::elsewhere_tidy))]
pub(crate) fn fault_elsewhere(p: &Position) -> bool
    requires { Tidy p.now }
    ensures { result ≡ fault_elsewhere p.now }
{
    kings_off(p) || over_limit(&p.kinds, &p.hands) || out_of_range(p.side, p.ply, p.last)
}
