// Colours by number: Black 1, White 2.
ghost use Rattle.std.specs.Prelude.{◌≡◌};
ghost use Rattle.squares.specs.Kinds.{good_colour};
ghost use Rattle.squares.specs.Answers.{number_given, other_colour_answer};

use crate::bad_number::BadNumber;

#[derive(Clone, Copy)]
pub struct Color;

impl Color {
    pub const NUM: usize = 2;

    // Numbers, as colours are in every call (head of lib.rt).
    pub const BLACK: u8 = 1;

    pub const WHITE: u8 = 2;

    #[tactic(auto, using(crate::proofs::Numbers::colour_good, crate::proofs::Numbers::colour_low, crate::proofs::Numbers::colour_high))]
    pub fn is_good(color: u8) -> bool
        ensures { result ≡ good_colour color }
    {
        matches!(color, 1..=2)
    }

    #[tactic(auto, unfolding(crate::specs::Kinds::other_colour, crate::specs::Answers::other_colour_answer), using(crate::proofs::Numbers::colour_range))]
    pub fn flip(color: u8) -> Result<u8, BadNumber>
        ensures { number_given result ≡ other_colour_answer color }
    {
        if !Self::is_good(color) {
            return Err(BadNumber);
        }
        Ok(3 - color)
    }
}
