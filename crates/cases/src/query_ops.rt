// The queries of a position: ops 22 to 33. Ops by number: see ops.rt.
use crate::answer::Answer;
use crate::args::{of_two, parse};
use position::Position;

pub fn answer(op: u64, args: &[u64], answer: &mut Answer) -> Option<()> {
    match op {
        22 => answer.put_result(parse::<Position>(args)?.soundness()),
        23 => answer.put_result(of_two(args, Position::piece_at)?),
        24 => answer.put_result(of_two(args, Position::player_bitboard)?),
        25 => answer.put_result(of_two(args, Position::piece_kind_bitboard)?),
        26 => answer.put_result(of_two(args, Position::piece_bitboard)?),
        27 => answer.put_result(parse::<Position>(args)?.occupied_bitboard()),
        28 => answer.put_result(parse::<Position>(args)?.vacant_bitboard()),
        29 => answer.put_result(parse::<Position>(args)?.side_to_move()),
        30 => answer.put_result(parse::<Position>(args)?.ply()),
        31 => {
            let (p, color, kind) = parse::<(Position, u8, u8)>(args)?;
            answer.put_result(p.hand(color, kind))
        }
        32 => answer.put_result(of_two(args, Position::king_position)?),
        33 => answer.put_result(parse::<Position>(args)?.last_move()),
        _ => None,
    }
}
