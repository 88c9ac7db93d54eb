// The first faulty cell in reading order: searched only where the sets are not those of the cells.
ghost use Rattle.std.specs.Prelude.{◌≡◌, not, length};
ghost use Rattle.std.specs.Bool.{beq};
ghost use Rattle.squares.specs.Sets.{has};
ghost use Rattle.position.specs.Sound.{any_below, disagrees, faulty_at, first_fault};
ghost use Rattle.position.specs.Inner.{OnBoard};

use crate::cells::{cell, color_of, kind_of};
use crate::position::Position;
use squares::{Bitboard, Piece};

// Of a number that is no square nothing is said to be there, as `has` has it.
fn contains(set: Bitboard, n: u8) -> bool
    ensures { result ≡ has set n }
{
    set.contains(n).unwrap_or(false)
}

// Whether a set disagrees with what stands on a square.
fn unlike(set: Bitboard, n: u8, here: bool) -> bool
    ensures { result ≡ not (beq (has set n) here) }
{
    contains(set, n) != here
}

// Whether a set disagrees that the cell of n has its mark, the set's place counted from 1.
fn marks_differ(sets: &[Bitboard], n: u8, mark: u8) -> bool
    ensures { result ≡ any_below (disagrees sets.now mark n) (length sets.now) }
{
    for (j, set) in sets.iter().enumerate() {
        if unlike(*set, n, usize::from(mark) == j + 1) {
            return true;
        }
    }
    false
}

// Whether the cell of n is bad, or one of the sixteen sets disagrees with it there.
#[tactic(auto, unfolding(crate::specs::Sound::faulty_at))]
fn faulty(p: &Position, n: u8) -> bool
    requires { OnBoard n }
    ensures { result ≡ faulty_at p.now n }
{
    let cell = cell(&p.board, n);
    !Piece::is_cell(cell)
        || marks_differ(&p.players, n, color_of(cell))
        || marks_differ(&p.kinds, n, kind_of(cell))
}

// The first faulty square in reading order, or 0, as `first_fault` has it: rank 1 from file 9 to file 1, then rank 2, and so on.
// (Document 01 names the form: loops over ranks and files, left by a label.)
pub(crate) fn first_fault(p: &Position) -> u8
    ensures { result ≡ first_fault p.now }
{
    let mut found: u8 = 0;
    'search: for rank in 1..=9u8 {
        for file in (1..=9u8).rev() {
            let n = 9 * file - 9 + rank;
            if faulty(p, n) {
                found = n;
                break 'search;
            }
        }
    }
    found
}
