// Pieces as letters: P L N S G B R K, lower case for White, `+` before a promoted one. Kinds, colours and cells are numbers by
// document 01, and any number has a text in the definitions.
#![tactic(auto, using(crate::proofs::Cases::letters_cases))]

ghost use Rattle.std.specs.Prelude.{◌≡◌, ◌++◌, not, ◌≤◌, eqb};
ghost use Rattle.squares.specs.Kinds.{kind_row};
ghost use Rattle.sfen.specs.Text.{letter_of, kind_text, piece_text};
ghost use Rattle.sfen.specs.Inner.{Fits};

use crate::line::Line;
use squares::{Color, PieceKind};

// 0 for what is no kind, as the row of a number that is none has it. (83 is S, the last: 32 more fits.)
fn capital(kind: u8) -> u8
    ensures { (result ≡ (kind_row kind).letter) × (result ≤ 83) }
{
    PieceKind::letter(kind).unwrap_or(0)
}

// A number that is no kind counts as unpromoted to 0, as its row has it.
fn is_promoted(kind: u8) -> bool
    ensures { result ≡ not (eqb (kind_row kind).unpromoted kind) }
{
    PieceKind::unpromote(kind).unwrap_or(0) != kind
}

// The letter of a kind in its colour's case.
#[tactic(auto, unfolding(crate::specs::Text::letter_of))]
pub(crate) fn letter(color: u8, kind: u8) -> u8
    ensures { result ≡ letter_of color kind }
{
    let b = capital(kind);
    if color == Color::BLACK { b } else { b + 32 }
}

impl Line {
    fn put_kind(&mut self, color: u8, kind: u8)
        requires { Fits (self.old ++ kind_text color kind) }
        ensures { self.new ≡ self.old ++ kind_text color kind }
    {
        if is_promoted(kind) {
            self.put(b'+');
        }
        self.put(letter(color, kind));
    }

    pub(crate) fn put_piece(&mut self, cell: u8)
        requires room { Fits (self.old ++ piece_text cell) }
        requires occupied { 1 ≤ cell }
        ensures { self.new ≡ self.old ++ piece_text cell }
    {
        if cell <= 16 {
            self.put_kind(Color::BLACK, cell);
        } else {
            self.put_kind(Color::WHITE, cell - 16);
        }
    }
}
