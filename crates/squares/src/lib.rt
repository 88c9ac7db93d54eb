// Squares, colours, kinds, pieces and sets of squares: the bottom layer, which rests on nothing. Squares, colours, kinds and pieces
// are taken as numbers and not as enums, since any number may be passed: theorems and must-fail edits speak of bad ones too.
// In braces stands what is proved, and a name there is a definition of specs/, which `ghost use` brings in: where a function has the
// same name, it answers what that definition says. `x.old` is what a lent `x` was at entry, `x.new` what it is at exit.
#![tactic(auto)]

mod bad_number;
mod bitboard;
mod by_cell;
mod color;
mod marks;
mod piece;
mod piece_kind;
mod square;

pub use bad_number::BadNumber;
pub use bitboard::{Bitboard, Direction};
pub use color::Color;
pub use marks::Marks;
pub use piece::Piece;
pub use piece_kind::PieceKind;
pub use square::Square;
