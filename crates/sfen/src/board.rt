// The board's part of the text: ranks 1 to 9, each from file 9 to file 1.
#![tactic(auto, using(crate::proofs::Cases::board_cases))]

ghost use Rattle.std.specs.Prelude.{◌≡◌, ◌++◌, ◌≤◌};
ghost use Rattle.sfen.specs.Text.{run, rank_text, rank_cells, board_text, shogi};
ghost use Rattle.sfen.specs.Inner.{Fits};

use crate::line::Line;
use squares::Square;

impl Line {
    // A run of empty cells as one digit; none where there is none.
    fn put_run(&mut self, empty: u8)
        requires room { Fits (self.old ++ run empty) }
        requires digit { empty ≤ 9 }
        ensures { self.new ≡ self.old ++ run empty }
    {
        if empty != 0 {
            self.put(48 + empty);
        }
    }

    fn put_rank(&mut self, board: &[u8; Square::NUM], rank: usize)
        requires room { Fits (self.old ++ rank_text 0 (rank_cells 9 board.now rank)) }
        requires on_board { (1 ≤ rank) × (rank ≤ 9) }
        ensures { self.new ≡ self.old ++ rank_text 0 (rank_cells 9 board.now rank) }
    {
        let mut empty: u8 = 0;
        // So many files lie before it, nine cells each: `rank_cells` counts them so.
        for file in (0..9).rev() {
            let cell = board[9 * file + rank - 1];
            if cell == 0 {
                empty += 1;
            } else {
                self.put_run(empty);
                self.put_piece(cell);
                empty = 0;
            }
        }
        self.put_run(empty);
    }

    pub(crate) fn put_board(&mut self, board: &[u8; Square::NUM])
        requires { Fits (self.old ++ board_text shogi board.now) }
        ensures { self.new ≡ self.old ++ board_text shogi board.now }
    {
        self.put_rank(board, 1);
        for rank in 2..=9 {
            self.put(b'/');
            self.put_rank(board, rank);
        }
    }
}
