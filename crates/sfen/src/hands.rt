// The hands' part of the text: `-`, or Black's then White's, each in the order R B G S N L P.
#![tactic(auto, using(crate::proofs::Cases::hands_cases))]

ghost use Rattle.std.specs.Prelude.{◌≡◌, ◌++◌, ◌≤◌, length};
ghost use Rattle.sfen.specs.Text.{letter_of, count_text, hand_text, hands_text, shogi};
ghost use Rattle.sfen.specs.Inner.{Fits};

use crate::letters::letter;
use crate::line::Line;
use squares::Color;

impl Line {
    // So many of a kind: the count only above 1.
    fn put_count(&mut self, color: u8, kind: u8, n: u8)
        requires { Fits (self.old ++ count_text (letter_of color kind) n) }
        ensures { self.new ≡ self.old ++ count_text (letter_of color kind) n }
    {
        if n == 0 {
            return;
        }
        if n != 1 {
            self.put_number(u16::from(n));
        }
        self.put(letter(color, kind));
    }

    fn put_hand(&mut self, hands: &[u8; 14], color: u8)
        requires room { Fits (self.old ++ hand_text shogi.held hands.now color) }
        requires good_color { (1 ≤ color) × (color ≤ 2) }
        ensures { self.new ≡ self.old ++ hand_text shogi.held hands.now color }
    {
        // Where the hand begins: its seven are read in turn, by the numbers of their kinds, as `hand_text` has it.
        let from = usize::from(color - 1) * 7;
        for kind in (1..=7).rev() {
            self.put_count(color, kind, hands[from + usize::from(kind - 1)]);
        }
    }

    pub(crate) fn put_hands(&mut self, hands: &[u8; 14])
        requires { Fits (self.old ++ hands_text shogi hands.now) }
        ensures { self.new ≡ self.old ++ hands_text shogi hands.now }
    {
        let before = self.written().len();
        self.put_hand(hands, Color::BLACK);
        self.put_hand(hands, Color::WHITE);
        if self.written().len() == before {
            self.put(b'-');
        }
    }
}
