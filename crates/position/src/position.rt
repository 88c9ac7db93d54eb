// A position: 81 cells, two hands, side, ply and last move; beside them the king squares and the sixteen sets, which follow
// from the cells. Integers only, laid out as in C: the firmware lends this very struct. A king square is 0 where there is
// no king.
ghost use Rattle.std.specs.Prelude.{◌≡◌};
ghost use Rattle.squares.specs.Sets.{smallest};
ghost use Rattle.position.specs.Machine.{empty_position, start_position};
ghost use Rattle.position.specs.Inner.{WithBoard};

use crate::mv::MoveNumbers;
use squares::{Bitboard, Color, Marks, PieceKind, Square};

#[repr(C)]
#[derive(Clone, Copy)]
pub struct Position {
    pub board: [u8; Square::NUM],
    pub hands: [u8; 14],
    pub bking: u8,
    pub wking: u8,
    pub side: u8,
    pub last: MoveNumbers,
    pub ply: u16,
    pub players: [Bitboard; Color::NUM],
    pub kinds: [Bitboard; PieceKind::NUM],
}

impl Position {
    // The last move number that there is: no move is made at it.
    pub const TOP_PLY: u16 = 65535;

    // Each file from rank 1 to rank 9, file 1 first.
    const START: [u8; Square::NUM] = [
        18, 0, 17, 0, 0, 0, 1, 0, 2, 19, 22, 17, 0, 0, 0, 1, 7, 3, 20, 0, 17, 0, 0, 0, 1, 0, 4, 21,
        0, 17, 0, 0, 0, 1, 0, 5, 24, 0, 17, 0, 0, 0, 1, 0, 8, 21, 0, 17, 0, 0, 0, 1, 0, 5, 20, 0,
        17, 0, 0, 0, 1, 0, 4, 19, 23, 17, 0, 0, 0, 1, 6, 3, 18, 0, 17, 0, 0, 0, 1, 0, 2,
    ];

    // No piece, Black to move, ply 1.
    #[tactic(auto, unfolding(squares::specs::Sets::first_of, crate::specs::Machine::king_square, crate::specs::Machine::full, crate::specs::Machine::empty_position), using(squares::proofs::Laws::empty_colour, squares::proofs::Laws::black_kind, squares::proofs::Laws::family_zeros))]
    pub fn empty() -> Self
        ensures { result ≡ empty_position }
    {
        let none = Bitboard::empty();
        let board = [0u8; Square::NUM];
        let hands = [0u8; 14];
        let players = [none; Color::NUM];
        let kinds = [none; PieceKind::NUM];
        let last = MoveNumbers::none();
        Self {
            board,
            hands,
            bking: 0,
            wking: 0,
            side: 1,
            last,
            ply: 1,
            players,
            kinds,
        }
    }

    pub fn startpos() -> Self
        ensures { result ≡ start_position }
    {
        let board = Self::START;
        with_board(Self::empty(), board)
    }
}

// The smallest square of a set, or 0, as `smallest` has it. (Each arm is a case of pop's promise: a closure would hide that.)
fn first_square(set: Bitboard) -> u8
    ensures { result ≡ smallest set }
{
    match set.pop() {
        Some((n, _)) => n,
        None => 0,
    }
}

// A position with other cells, which are good: the sets and the king squares are made anew from them.
pub(crate) fn with_board(p: Position, board: [u8; Square::NUM]) -> Position
    ensures { WithBoard p board result }
{
    let Ok(marks) = Marks::of(&board) else {
        return p;
    };
    let players = marks.players;
    let kinds = marks.kinds;
    let black = players[0];
    let white = players[1];
    let kings = kinds[7];
    let bking = first_square(black.and(kings));
    let wking = first_square(white.and(kings));
    Position {
        board,
        bking,
        wking,
        players,
        kinds,
        ..p
    }
}
