// Squares, pieces, moves and numbers as shogi programs write them: 7g, +p, 8h2b+, P*5e.
use position::Move;
use squares::{BadNumber, Color, Piece, PieceKind, Square};
use std::fmt;

// A digit and a letter in either case are a square. One that is not on the board is 0, since it is the call that refuses it, in
// the order of its refusals.
fn square_of(file: u8, rank: u8) -> Option<u8> {
    let rank = rank.to_ascii_lowercase();
    if !file.is_ascii_digit() || !rank.is_ascii_lowercase() {
        return None;
    }
    Some(Square::new(file - b'0', rank - b'a' + 1).unwrap_or(0))
}

pub fn square(word: &[u8]) -> Option<u8> {
    match word {
        [file, rank] => square_of(*file, *rank),
        _ => None,
    }
}

pub fn color(word: &[u8]) -> Option<u8> {
    match word {
        b"b" | b"black" => Some(Color::BLACK),
        b"w" | b"white" => Some(Color::WHITE),
        _ => None,
    }
}

// The unpromoted kind that a letter in either case names.
fn kind_of(letter: u8) -> Option<u8> {
    let capital = letter.to_ascii_uppercase();
    (1..=8u8).find(|kind| PieceKind::letter(*kind) == Ok(capital))
}

// The piece of a colour that a letter in either case names.
fn piece_of(letter: u8, color: u8) -> Option<u8> {
    Piece::new(kind_of(letter)?, color).ok()
}

// Upper case is Black's.
fn colored(letter: u8) -> Option<u8> {
    if letter.is_ascii_uppercase() {
        piece_of(letter, Color::BLACK)
    } else {
        piece_of(letter, Color::WHITE)
    }
}

fn promoted(piece: u8) -> Option<u8> {
    Piece::promote(piece).ok()?
}

// P, or +P.
fn piece(word: &[u8]) -> Option<u8> {
    match word {
        [letter] => colored(*letter),
        [b'+', letter] => promoted(colored(*letter)?),
        _ => None,
    }
}

// A piece, or a point for the empty cell.
pub fn cell(word: &[u8]) -> Option<u8> {
    match word {
        b"." => Some(0),
        _ => piece(word),
    }
}

// The kind of a piece in either case.
pub fn kind(word: &[u8]) -> Option<u8> {
    Piece::kind(piece(word)?).ok()
}

// A number in decimal, of five digits at most.
pub fn ply(word: &[u8]) -> Option<u16> {
    if 5 < word.len() || !word.iter().all(|b| b.is_ascii_digit()) {
        return None;
    }
    std::str::from_utf8(word).ok()?.parse().ok()
}

// A number below 256.
pub fn count(word: &[u8]) -> Option<u8> {
    u8::try_from(ply(word)?).ok()
}

// Whether a word begins as a move does, and so as no command.
pub fn begins_a_move(word: &[u8]) -> bool {
    matches!(word, [b'0'..=b'9' | b'+', ..] | [_, b'*', ..])
}

// A move of `side`: from, to and a + where it promotes; or a piece, * and where it is dropped. +P*5e is a move too, which the
// call refuses.
pub fn read_move(word: &[u8], side: u8) -> Option<Move> {
    match word {
        [letter, b'*', to @ ..] => drop(piece_of(*letter, side)?, to),
        [b'+', letter, b'*', to @ ..] => drop(promoted(piece_of(*letter, side)?)?, to),
        [file, rank, to_file, to_rank] => normal([*file, *rank, *to_file, *to_rank], false),
        [file, rank, to_file, to_rank, b'+'] => normal([*file, *rank, *to_file, *to_rank], true),
        _ => None,
    }
}

fn normal([file, rank, to_file, to_rank]: [u8; 4], promote: bool) -> Option<Move> {
    let from = square_of(file, rank)?;
    let to = square_of(to_file, to_rank)?;
    Some(Move::Normal { from, to, promote })
}

fn drop(piece: u8, to: &[u8]) -> Option<Move> {
    let to = square(to)?;
    Some(Move::Drop { piece, to })
}

// The letter of a kind, small for White.
pub fn letter(kind: u8, color: u8) -> Result<char, BadNumber> {
    let capital = PieceKind::letter(kind)?;
    if color == Color::WHITE {
        return Ok(char::from(capital.to_ascii_lowercase()));
    }
    Ok(char::from(capital))
}

// A square, as 7g.
#[derive(Clone, Copy)]
struct SquareName(u8);

impl fmt::Display for SquareName {
    fn fmt<W: fmt::Write>(&self, f: &mut fmt::Formatter<W>) -> fmt::Result {
        match (Square::file(self.0), Square::rank(self.0)) {
            (Ok(file), Ok(rank @ 1..=9)) => write!(f, "{file}{}", char::from(b'a' + rank - 1)),
            _ => Ok(()),
        }
    }
}

// A move in the notation in which it is typed.
#[derive(Clone, Copy)]
pub struct MoveName(pub Move);

impl fmt::Display for MoveName {
    fn fmt<W: fmt::Write>(&self, f: &mut fmt::Formatter<W>) -> fmt::Result {
        match self.0 {
            Move::Normal { from, to, promote } => {
                let plus = if promote { "+" } else { "" };
                write!(f, "{}{}{plus}", SquareName(from), SquareName(to))
            }
            Move::Drop { piece, to } => {
                // A move that was made drops a piece.
                let capital = Piece::kind(piece).and_then(PieceKind::letter);
                let capital = char::from(capital.map_err(|_| fmt::Error)?);
                write!(f, "{capital}*{}", SquareName(to))
            }
        }
    }
}
