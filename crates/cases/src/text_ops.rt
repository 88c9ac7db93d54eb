// The text, and games, which end in one: ops 39 and 90.
use crate::answer::{Answer, Value};
use crate::args::parse;
use crate::change_ops::after;
use lent::make_move_through;
use position::{Position, Told};
use sfen::write_sfen;
use std::array;

// The longest buffer that a line may ask for.
const LONGEST: usize = 512;

// The text in a buffer that had a byte of its own in each place. (`as` loses nothing of a remainder by 256.)
pub fn text(args: &[u64], answer: &mut Answer) -> Option<()> {
    let (p, len) = parse::<(Position, u16)>(args)?;
    let mut bytes: [u8; LONGEST] = array::from_fn(|i| ((7 * i + 13) % 256) as u8);
    let buffer = bytes.get_mut(..usize::from(len))?;
    answer.put_result(write_sfen(p, buffer))?;
    answer.put_all(buffer)
}

// From the empty or the start position.
pub fn game(args: &[u64], answer: &mut Answer) -> Option<()> {
    let (start, moves) = args.split_first()?;
    let start = match start {
        0 => Position::empty(),
        1 => Position::startpos(),
        _ => return None,
    };
    let last = play(start, moves, answer)?;
    last.put(answer)?;
    // write_sfen fills a lent slice and says how many bytes: the count lives for this function.
    let mut buffer = [0u8; LONGEST];
    let length = write_sfen(last, &mut buffer).unwrap_or(0);
    length.put(answer)?;
    answer.put_all(buffer.get(..length)?)
}

// A refused move is left out.
fn play(start: Position, moves: &[u64], answer: &mut Answer) -> Option<Position> {
    let mut p = start;
    for m in moves.chunks(4) {
        let moved = make_move_through(p, parse(m)?);
        Told::from(moved.map(|_| ())).number.put(answer)?;
        p = after(p, moved);
    }
    Some(p)
}
