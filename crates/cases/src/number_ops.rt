// The calls on squares and kinds by number: ops 15 to 17. Ops by number: see ops.rt.
use crate::answer::Answer;
use crate::args::{of_two, parse};
use squares::{BadNumber, PieceKind, Square};

pub fn answer(op: u64, args: &[u64], answer: &mut Answer) -> Option<()> {
    match op {
        15 => answer.put_result(of_two(args, Square::new)?),
        16 => answer.put_result(file_and_rank(parse(args)?)),
        17 => answer.put_result(kind(parse(args)?)),
        _ => None,
    }
}

fn file_and_rank(square: u8) -> Result<[u8; 2], BadNumber> {
    Ok([Square::file(square)?, Square::rank(square)?])
}

// The other forms of a kind, its limit and its letter.
fn kind(kind: u8) -> Result<[u8; 4], BadNumber> {
    let unpromoted = PieceKind::unpromote(kind)?;
    let promoted = PieceKind::promote(kind)?;
    let limit = PieceKind::limit(kind)?;
    let letter = PieceKind::letter(kind)?;
    Ok([unpromoted, promoted.unwrap_or(0), limit, letter])
}
