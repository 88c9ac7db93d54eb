// A plan carried out on a position: two cells change, and the sets and the king squares follow.
ghost use Rattle.std.specs.Prelude.{◌≡◌};
ghost use Rattle.position.specs.Plans.{king_after, stored_by, toggled_at, Playable};

use crate::cells::{color_of, kind_of, single};
use crate::plan::Plan;
use crate::position::Position;
use squares::Piece;

// The square of `king`, which was `was`, after a plan: 0 where there is none, as the definition has it.
#[tactic(auto, unfolding(crate::specs::Plans::king_after))]
fn king_after(king: u8, was: u8, plan: &Plan) -> u8
    ensures { result ≡ king_after king was plan.now.left plan.now.taken plan.now.piece plan.now.to }
{
    if plan.piece == king {
        return plan.to;
    }
    if plan.left == king || plan.taken == king {
        return 0;
    }
    was
}

impl Position {
    // All that a plan changes but the sets. (An array is stored by way of a variable: the proof's borrow checker asks for that.)
    // The piece is stored last, since a drop leaves and reaches the same square.
    #[tactic(auto, unfolding(crate::specs::Plans::stored_by, crate::specs::Sound::top_ply, squares::specs::Kinds::other_colour))]
    pub(crate) fn store(&mut self, plan: Plan)
        requires { Playable self.old plan }
        ensures { self.new ≡ stored_by self.old plan }
    {
        self.board[usize::from(plan.from - 1)] = 0;
        self.board[usize::from(plan.to - 1)] = plan.piece;
        self.bking = king_after(8, self.bking, &plan);
        self.wking = king_after(24, self.wking, &plan);
        let hands = plan.hands;
        self.hands = hands;
        self.side = 3 - self.side;
        let last = plan.last;
        self.last = last;
        self.ply += 1;
    }

    // The square leaves the sets of the cell, or joins them.
    pub(crate) fn toggle(&mut self, cell: u8, square: u8)
        ensures { self.new ≡ toggled_at self.old cell square }
    {
        let one = single(square);
        if cell != 0 {
            let at = usize::from(color_of(cell) - 1);
            self.players[at] = self.players[at].xor(one);
        }
        if Piece::is_good(cell) {
            let at = usize::from(kind_of(cell) - 1);
            self.kinds[at] = self.kinds[at].xor(one);
        }
    }
}
