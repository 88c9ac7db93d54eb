// Whether the stored sets are those of the cells: the sets are built anew from the cells, and compared.
ghost use Rattle.std.specs.Prelude.{◌≡◌, length};
ghost use Rattle.position.specs.Inner.{AllClean, Compared, TidyTold};

use crate::position::Position;
use squares::{Bitboard, Marks};

#[tactic(auto, using(crate::proofs::Agree::compared_all, crate::proofs::Agree::compared_at, crate::proofs::Agree::equal_at))]
fn same_sets(stored: &[Bitboard], made: &[Bitboard]) -> bool
    requires { (length stored.now ≡ length made.now) × AllClean made.now }
    ensures { Compared stored.now made.now result }
{
    for (set, other) in stored.iter().zip(made) {
        if !set.is_exactly(*other) {
            return false;
        }
    }
    true
}

// Whether the cells are good and the sixteen sets are those of the cells. (With is_ok_and the proof didn't close: its closure has to
// show what same_sets asks.)
pub(crate) fn is_tidy(p: &Position) -> bool
    ensures { TidyTold p.now result }
{
    match Marks::of(&p.board) {
        Ok(marks) => same_sets(&p.players, &marks.players) && same_sets(&p.kinds, &marks.kinds),
        Err(_) => false,
    }
}
