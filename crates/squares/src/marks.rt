// The sets that the cells of a board make.
ghost use Rattle.std.specs.Prelude.{◌≡◌, fold};
ghost use Rattle.squares.specs.Sets.{empty_s, or_s};
ghost use Rattle.squares.specs.Answers.{marks_given, marks_answer};

use crate::bad_number::BadNumber;
use crate::bitboard::Bitboard;
use crate::color::Color;
use crate::piece_kind::PieceKind;
use crate::square::Square;

// The squares of each colour and of each kind.
#[derive(Clone, Copy)]
pub struct Marks {
    pub players: [Bitboard; Color::NUM],
    pub kinds: [Bitboard; PieceKind::NUM],
}

// The squares of all of some sets.
fn union(sets: &[Bitboard]) -> Bitboard
    ensures { result ≡ fold or_s empty_s sets.now }
{
    sets.iter().fold(Bitboard::empty(), |all, &set| all.or(set))
}

impl Marks {
    // Refused where a cell is bad.
    pub fn of(board: &[u8; Square::NUM]) -> Result<Self, BadNumber>
        ensures { marks_given result ≡ marks_answer board.now }
    {
        let sets = Bitboard::by_cell(board);
        // No cell may hold 15, 16, or what is sorted last.
        let bad = union(&[sets[15], sets[16], sets[31]]);
        if !bad.is_empty() {
            return Err(BadNumber);
        }
        let black = &sets[1..15];
        let white = &sets[17..31];
        let mut kinds = [Bitboard::empty(); PieceKind::NUM];
        // By place, since the proof's borrow checker does not cover a zip of three.
        for (j, kind) in kinds.iter_mut().enumerate() {
            *kind = black[j].or(white[j]);
        }
        Ok(Self {
            players: [union(black), union(white)],
            kinds,
        })
    }
}
