// Positions: the two to begin with, by value, and what is asked of a lent one, which stays as it is.
ghost use Rattle.std.specs.Prelude.{◌≡◌};
ghost use Rattle.position.specs.Machine.{empty_position, start_position};
ghost use Rattle.position.specs.Answers.{soundness_told, piece_at_answer, colour_set_answer, kind_set_answer, piece_set_answer, occupied_answer, vacant_answer};
ghost use Rattle.position.specs.Answers.{side_answer, ply_answer, hand_answer, king_answer};
ghost use Rattle.position.specs.Answers.{told_piece_given};
ghost use Rattle.firmware.specs.Shown.{piece_shown, king_shown, last_shown};

use crate::answers::CLast;
use position::{MoveNumbers, Position, Refusal, Told, ToldNumber, ToldPly, ToldSet};

#[unsafe(no_mangle)]
pub extern "C" fn pulfredan_startpos() -> Position
    ensures { result ≡ start_position }
{
    Position::startpos()
}

#[unsafe(no_mangle)]
pub extern "C" fn pulfredan_empty() -> Position
    ensures { result ≡ empty_position }
{
    Position::empty()
}

// ---- answers that hold an Option, as numbers

// A piece or a square: neither is 0, so that 0 says "nothing".
fn or_zero(answer: Result<Option<u8>, Refusal>) -> ToldNumber
    ensures { result ≡ piece_shown (told_piece_given answer) }
{
    ToldNumber::from(answer.map(|found| found.unwrap_or(0)))
}

// The four numbers as the position stores them: of a sound one they are a move's, or none.
fn last_move(p: Position) -> CLast
    ensures { result ≡ last_shown p }
{
    let told = Told::from(p.soundness());
    let last = if told.number == 0 {
        p.last
    } else {
        MoveNumbers::none()
    };
    CLast { told, last }
}

// ---- of a lent position

#[unsafe(no_mangle)]
pub extern "C" fn pulfredan_soundness(p: &Position) -> Told
    ensures { result ≡ soundness_told p.now }
{
    Told::from((*p).soundness())
}

#[unsafe(no_mangle)]
pub extern "C" fn pulfredan_piece_at(p: &Position, square: u8) -> ToldNumber
    ensures { result ≡ piece_shown (piece_at_answer p.now square) }
{
    or_zero((*p).piece_at(square))
}

#[unsafe(no_mangle)]
pub extern "C" fn pulfredan_player_bitboard(p: &Position, color: u8) -> ToldSet
    ensures { result ≡ colour_set_answer p.now color }
{
    ToldSet::from((*p).player_bitboard(color))
}

#[unsafe(no_mangle)]
pub extern "C" fn pulfredan_piece_kind_bitboard(p: &Position, kind: u8) -> ToldSet
    ensures { result ≡ kind_set_answer p.now kind }
{
    ToldSet::from((*p).piece_kind_bitboard(kind))
}

#[unsafe(no_mangle)]
pub extern "C" fn pulfredan_piece_bitboard(p: &Position, piece: u8) -> ToldSet
    ensures { result ≡ piece_set_answer p.now piece }
{
    ToldSet::from((*p).piece_bitboard(piece))
}

#[unsafe(no_mangle)]
pub extern "C" fn pulfredan_occupied_bitboard(p: &Position) -> ToldSet
    ensures { result ≡ occupied_answer p.now }
{
    ToldSet::from((*p).occupied_bitboard())
}

#[unsafe(no_mangle)]
pub extern "C" fn pulfredan_vacant_bitboard(p: &Position) -> ToldSet
    ensures { result ≡ vacant_answer p.now }
{
    ToldSet::from((*p).vacant_bitboard())
}

#[unsafe(no_mangle)]
pub extern "C" fn pulfredan_side_to_move(p: &Position) -> ToldNumber
    ensures { result ≡ side_answer p.now }
{
    ToldNumber::from((*p).side_to_move())
}

#[unsafe(no_mangle)]
pub extern "C" fn pulfredan_ply(p: &Position) -> ToldPly
    ensures { result ≡ ply_answer p.now }
{
    ToldPly::from((*p).ply())
}

#[unsafe(no_mangle)]
pub extern "C" fn pulfredan_hand(p: &Position, color: u8, kind: u8) -> ToldNumber
    ensures { result ≡ hand_answer p.now color kind }
{
    ToldNumber::from((*p).hand(color, kind))
}

#[unsafe(no_mangle)]
pub extern "C" fn pulfredan_king_position(p: &Position, color: u8) -> ToldNumber
    ensures { result ≡ king_shown (king_answer p.now color) }
{
    or_zero((*p).king_position(color))
}

#[unsafe(no_mangle)]
pub extern "C" fn pulfredan_last_move(p: &Position) -> CLast
    ensures { result ≡ last_shown p.now }
{
    last_move(*p)
}
