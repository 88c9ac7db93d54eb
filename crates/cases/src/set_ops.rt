// The calls on sets of squares: ops 1 to 14. Ops by number: see ops.rt.
use crate::answer::Answer;
use crate::args::{of_two, parse};
use squares::{Bitboard, Direction};

pub fn answer(op: u64, args: &[u64], answer: &mut Answer) -> Option<()> {
    match op {
        1 if args.is_empty() => answer.put_done(Bitboard::empty()),
        2 => answer.put_result(Bitboard::single(parse(args)?)),
        3 => answer.put_done(parse::<Bitboard>(args)?.count()),
        4 => answer.put_result(of_two(args, Bitboard::contains)?),
        5 => answer.put_done(of_two(args, Bitboard::or)?),
        6 => answer.put_done(of_two(args, Bitboard::and)?),
        7 => answer.put_done(of_two(args, Bitboard::xor)?),
        8 => answer.put_done(of_two(args, Bitboard::andnot)?),
        9 => answer.put_done(parse::<Bitboard>(args)?.not()),
        10 => answer.put_result(of_two(args, Bitboard::from_file)?),
        11 => answer.put_result(of_two(args, Bitboard::get_file)?),
        12 => answer.put_done(parse::<Bitboard>(args)?.flip()),
        13 => answer.put_done(parse::<Bitboard>(args)?.pop()),
        14 => {
            let (shifted, direction, distance) = parse::<(Bitboard, Direction, u8)>(args)?;
            answer.put_result(shifted.shift(direction, distance))
        }
        _ => None,
    }
}
