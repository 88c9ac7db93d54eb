// Colours, kinds and pieces by number. Neither a kind nor a piece is 0, so that 0 says "nothing".
ghost use Rattle.std.specs.Prelude.{◌≡◌};
ghost use Rattle.squares.specs.Answers.{other_colour_answer, promoted_answer, unpromoted_answer, limit_answer, letter_answer};
ghost use Rattle.squares.specs.Answers.{hand_kind_answer, piece_answer, kind_answer, colour_answer, promoted_piece_answer, unpromoted_piece_answer};
ghost use Rattle.firmware.specs.Shown.{number_shown, form_shown};

use crate::answers::CNumber;
use squares::{Color, Piece, PieceKind};

// ---- colours and kinds

#[unsafe(no_mangle)]
pub extern "C" fn pulfredan_color_flip(color: u8) -> CNumber
    ensures { result ≡ number_shown (other_colour_answer color) }
{
    CNumber::from(Color::flip(color))
}

#[unsafe(no_mangle)]
pub extern "C" fn pulfredan_kind_promote(kind: u8) -> CNumber
    ensures { result ≡ form_shown (promoted_answer kind) }
{
    CNumber::from(PieceKind::promote(kind))
}

#[unsafe(no_mangle)]
pub extern "C" fn pulfredan_kind_unpromote(kind: u8) -> CNumber
    ensures { result ≡ number_shown (unpromoted_answer kind) }
{
    CNumber::from(PieceKind::unpromote(kind))
}

#[unsafe(no_mangle)]
pub extern "C" fn pulfredan_kind_limit(kind: u8) -> CNumber
    ensures { result ≡ number_shown (limit_answer kind) }
{
    CNumber::from(PieceKind::limit(kind))
}

#[unsafe(no_mangle)]
pub extern "C" fn pulfredan_kind_letter(kind: u8) -> CNumber
    ensures { result ≡ number_shown (letter_answer kind) }
{
    CNumber::from(PieceKind::letter(kind))
}

#[unsafe(no_mangle)]
pub extern "C" fn pulfredan_kind_hand_kind(kind: u8) -> CNumber
    ensures { result ≡ form_shown (hand_kind_answer kind) }
{
    CNumber::from(PieceKind::hand_kind(kind))
}

// ---- pieces

#[unsafe(no_mangle)]
pub extern "C" fn pulfredan_piece_new(kind: u8, color: u8) -> CNumber
    ensures { result ≡ number_shown (piece_answer kind color) }
{
    CNumber::from(Piece::new(kind, color))
}

#[unsafe(no_mangle)]
pub extern "C" fn pulfredan_piece_kind(piece: u8) -> CNumber
    ensures { result ≡ number_shown (kind_answer piece) }
{
    CNumber::from(Piece::kind(piece))
}

#[unsafe(no_mangle)]
pub extern "C" fn pulfredan_piece_color(piece: u8) -> CNumber
    ensures { result ≡ number_shown (colour_answer piece) }
{
    CNumber::from(Piece::color(piece))
}

#[unsafe(no_mangle)]
pub extern "C" fn pulfredan_piece_promote(piece: u8) -> CNumber
    ensures { result ≡ form_shown (promoted_piece_answer piece) }
{
    CNumber::from(Piece::promote(piece))
}

#[unsafe(no_mangle)]
pub extern "C" fn pulfredan_piece_unpromote(piece: u8) -> CNumber
    ensures { result ≡ number_shown (unpromoted_piece_answer piece) }
{
    CNumber::from(Piece::unpromote(piece))
}
