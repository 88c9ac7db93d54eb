// Squares, and sets of squares by value.
ghost use Rattle.std.specs.Prelude.{◌≡◌};
ghost use Rattle.squares.specs.Sets.{empty_s, or_s, and_s, xor_s, andnot_s, not_s, size, is_empty, flip_s};
ghost use Rattle.squares.specs.Answers.{square_answer, file_answer, rank_answer, flip_answer, single_answer, contains_answer};
ghost use Rattle.squares.specs.Answers.{from_file_answer, get_file_answer, pop_answer, shift_answer};
ghost use Rattle.squares.specs.declared.bitboard.Direction.TheVariants.{Down, Up, Left, Right};
ghost use Rattle.firmware.specs.Shown.{number_shown, set_shown, truth_shown, pattern_shown, pop_shown};

use crate::answers::{CNumber, CPattern, CPop, CSet, CTruth};
use squares::{Bitboard, Square};

// ---- squares by number

#[unsafe(no_mangle)]
pub extern "C" fn pulfredan_square_new(file: u8, rank: u8) -> CNumber
    ensures { result ≡ number_shown (square_answer file rank) }
{
    CNumber::from(Square::new(file, rank))
}

#[unsafe(no_mangle)]
pub extern "C" fn pulfredan_square_file(square: u8) -> CNumber
    ensures { result ≡ number_shown (file_answer square) }
{
    CNumber::from(Square::file(square))
}

#[unsafe(no_mangle)]
pub extern "C" fn pulfredan_square_rank(square: u8) -> CNumber
    ensures { result ≡ number_shown (rank_answer square) }
{
    CNumber::from(Square::rank(square))
}

#[unsafe(no_mangle)]
pub extern "C" fn pulfredan_square_flip(square: u8) -> CNumber
    ensures { result ≡ number_shown (flip_answer square) }
{
    CNumber::from(Square::flip(square))
}

// ---- sets

#[unsafe(no_mangle)]
pub extern "C" fn pulfredan_set_empty() -> Bitboard
    ensures { result ≡ empty_s }
{
    Bitboard::empty()
}

#[unsafe(no_mangle)]
pub extern "C" fn pulfredan_set_single(square: u8) -> CSet
    ensures { result ≡ set_shown (single_answer square) }
{
    CSet::from(Bitboard::single(square))
}

#[unsafe(no_mangle)]
pub extern "C" fn pulfredan_set_count(s: Bitboard) -> u8
    ensures { result ≡ size s }
{
    s.count()
}

#[unsafe(no_mangle)]
pub extern "C" fn pulfredan_set_is_empty(s: Bitboard) -> bool
    ensures { result ≡ is_empty s }
{
    s.is_empty()
}

#[unsafe(no_mangle)]
pub extern "C" fn pulfredan_set_contains(s: Bitboard, square: u8) -> CTruth
    ensures { result ≡ truth_shown (contains_answer s square) }
{
    CTruth::from(s.contains(square))
}

#[unsafe(no_mangle)]
pub extern "C" fn pulfredan_set_or(a: Bitboard, b: Bitboard) -> Bitboard
    ensures { result ≡ or_s a b }
{
    a.or(b)
}

#[unsafe(no_mangle)]
pub extern "C" fn pulfredan_set_and(a: Bitboard, b: Bitboard) -> Bitboard
    ensures { result ≡ and_s a b }
{
    a.and(b)
}

#[unsafe(no_mangle)]
pub extern "C" fn pulfredan_set_xor(a: Bitboard, b: Bitboard) -> Bitboard
    ensures { result ≡ xor_s a b }
{
    a.xor(b)
}

// What is in b and not in a.
#[unsafe(no_mangle)]
pub extern "C" fn pulfredan_set_andnot(a: Bitboard, b: Bitboard) -> Bitboard
    ensures { result ≡ andnot_s a b }
{
    a.andnot(b)
}

#[unsafe(no_mangle)]
pub extern "C" fn pulfredan_set_not(s: Bitboard) -> Bitboard
    ensures { result ≡ not_s s }
{
    s.not()
}

#[unsafe(no_mangle)]
pub extern "C" fn pulfredan_set_from_file(file: u8, pattern: u16) -> CSet
    ensures { result ≡ set_shown (from_file_answer file pattern) }
{
    CSet::from(Bitboard::from_file(file, pattern))
}

#[unsafe(no_mangle)]
pub extern "C" fn pulfredan_set_get_file(s: Bitboard, file: u8) -> CPattern
    ensures { result ≡ pattern_shown (get_file_answer s file) }
{
    CPattern::from(s.get_file(file))
}

#[unsafe(no_mangle)]
pub extern "C" fn pulfredan_set_flip(s: Bitboard) -> Bitboard
    ensures { result ≡ flip_s s }
{
    s.flip()
}

#[unsafe(no_mangle)]
pub extern "C" fn pulfredan_set_pop(s: Bitboard) -> CPop
    ensures { result ≡ pop_shown (pop_answer s) }
{
    CPop::from(s.pop())
}

#[unsafe(no_mangle)]
pub extern "C" fn pulfredan_set_shift_down(s: Bitboard, delta: u8) -> CSet
    ensures { result ≡ set_shown (shift_answer Down delta s) }
{
    CSet::from(s.shift_down(delta))
}

#[unsafe(no_mangle)]
pub extern "C" fn pulfredan_set_shift_up(s: Bitboard, delta: u8) -> CSet
    ensures { result ≡ set_shown (shift_answer Up delta s) }
{
    CSet::from(s.shift_up(delta))
}

#[unsafe(no_mangle)]
pub extern "C" fn pulfredan_set_shift_left(s: Bitboard, delta: u8) -> CSet
    ensures { result ≡ set_shown (shift_answer Left delta s) }
{
    CSet::from(s.shift_left(delta))
}

#[unsafe(no_mangle)]
pub extern "C" fn pulfredan_set_shift_right(s: Bitboard, delta: u8) -> CSet
    ensures { result ≡ set_shown (shift_answer Right delta s) }
{
    CSet::from(s.shift_right(delta))
}
