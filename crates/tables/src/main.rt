// Prints what the calls on numbers that no case line reaches answer, for every number, and some calls on sets. What it must print comes
// from the Rust, where that has such a call.
#![tactic(auto)]

mod told;

use squares::{BadNumber, Bitboard, Color, Marks, Piece, PieceKind, Square};
use std::io;
use told::Told;

// A program ends with 0 whatever it does: a line on standard error says that it failed.
fn main(rt: HostRuntime) {
    if print_all(&rt).is_err() {
        let _ = eprintln!(rt; "tables: writing failed");
    }
}

// After a write that failed nothing more is written.
fn print_all(rt: &impl Print) -> io::Result<()> {
    for n in 0..=u8::MAX {
        print_row(rt, n)?;
    }
    for kind in 0..16u8 {
        for color in 0..4u8 {
            println!(rt; "{kind} {color} {}", Told(Piece::new(kind, color)))?;
        }
    }
    for bit in 0..64u8 {
        print_bit(rt, bit)?;
    }
    Ok(())
}

// What each call makes of one number.
fn print_row(rt: &impl Print, n: u8) -> io::Result<()> {
    print!(rt; "{n} ")?;
    print_squares_and_kinds(rt, n)?;
    print_pieces(rt, n)?;
    print_board(rt, n)
}

fn print_squares_and_kinds(rt: &impl Print, n: u8) -> io::Result<()> {
    print!(rt;
        "{} {} {} {} {} {} ",
        u8::from(Square::is_good(n)),
        Told(Square::flip(n)),
        u8::from(Color::is_good(n)),
        Told(Color::flip(n)),
        u8::from(PieceKind::is_good(n)),
        Told::from(PieceKind::hand_kind(n)),
    )
}

fn print_pieces(rt: &impl Print, n: u8) -> io::Result<()> {
    print!(rt;
        "{} {} {} {} {} {} ",
        u8::from(Piece::is_cell(n)),
        u8::from(Piece::is_good(n)),
        Told(Piece::kind(n)),
        Told(Piece::color(n)),
        Told::from(Piece::promote(n)),
        Told(Piece::unpromote(n)),
    )
}

// What Marks::of makes of a board with that cell everywhere: its number, and how many squares are Black's and White's.
fn print_board(rt: &impl Print, n: u8) -> io::Result<()> {
    match Marks::of(&[n; Square::NUM]) {
        Ok(marks) => {
            let [black, white] = marks.players;
            println!(rt; "0 {} {}", black.count(), white.count())
        }
        Err(BadNumber) => println!(rt; "2 0 0"),
    }
}

// Whether the set of one bit is empty, whether it is exactly itself, and whether the empty set is exactly it, in the first word and in
// the second: the stray bits are no squares.
fn print_bit(rt: &impl Print, bit: u8) -> io::Result<()> {
    let mask = 1u64 << (bit % 64);
    let none = Bitboard::empty();
    let first = Bitboard { lo: mask, ..none };
    let second = Bitboard { hi: mask, ..none };
    println!(rt;
        "{bit} {} {} {} {} {} {}",
        u8::from(first.is_empty()),
        u8::from(second.is_empty()),
        u8::from(first.is_exactly(first)),
        u8::from(second.is_exactly(second)),
        u8::from(none.is_exactly(first)),
        u8::from(none.is_exactly(second)),
    )
}
