// Where each number stands on a board of 81 cells.
ghost use Rattle.std.specs.Prelude.{◌≡◌, ◌+◌, ◌<◌, ◌≤◌, nat_eq, length};
ghost use Rattle.squares.specs.Bit.{word};
ghost use Rattle.squares.specs.Sets.{tab, cell_at, family};
ghost use Rattle.squares.specs.Inner.{cell_mark};

use crate::bitboard::Bitboard;
use crate::square::Square;

// The place of a cell number among 32: its own below 31, and the last for all others.
fn place(cell: u8) -> usize
    ensures { (result + 1 ≡ cell_mark cell) × (result < 32) }
{
    usize::from(cell.min(31))
}

// Bit i of each word: whether the cell i has that place.
fn cell_words(cells: &[u8]) -> [u64; 32]
    requires { length cells.now ≤ 63 }
    ensures { result ≡ tab (λ k. word (λ n. nat_eq (cell_mark (cell_at cells.now n)) k) 1 (length cells.now)) 1 32 }
{
    let mut words = [0; 32];
    let mut bit: u64 = 1;
    for &cell in cells {
        words[place(cell)] += bit;
        bit <<= 1;
    }
    words
}

impl Bitboard {
    // For each cell number below 31 the squares where it stands, and last the squares of all other numbers.
    // (One walk that fills sets is no plainer, as it must tell each cell's word, and costs Marks::of 1400 instructions where this takes
    // 820.)
    pub(crate) fn by_cell(board: &[u8; Square::NUM]) -> [Self; 32]
        ensures { result ≡ family cell_mark 32 board.now }
    {
        let low = cell_words(&board[..63]);
        let high = cell_words(&board[63..]);
        let mut sets = [Self::empty(); 32];
        // By place, since the proof's borrow checker does not cover a zip of three.
        for (k, set) in sets.iter_mut().enumerate() {
            *set = Self {
                lo: low[k],
                hi: high[k],
            };
        }
        sets
    }
}
