// Kinds of pieces by number: 1 Pawn, 2 Lance, 3 Knight, 4 Silver, 5 Gold, 6 Bishop, 7 Rook, 8 King, 9 to 12 promoted
// Pawn, Lance, Knight, Silver, 13 promoted Bishop, 14 promoted Rook.
ghost use Rattle.std.specs.Prelude.{◌≡◌, ◌≤◌};
ghost use Rattle.squares.specs.Kinds.{good_kind, kind_row};
ghost use Rattle.squares.specs.Answers.{number_given, form_given, promoted_answer, unpromoted_answer, limit_answer, letter_answer, hand_kind_answer};

use crate::bad_number::BadNumber;

#[derive(Clone, Copy)]
pub struct PieceKind;

impl PieceKind {
    pub const NUM: usize = 14;

    pub fn is_good(kind: u8) -> bool
        ensures { result ≡ good_kind kind }
    {
        matches!(kind, 1..=14)
    }

    // The promoted form, or nothing: Gold, King and promoted kinds do not promote.
    #[tactic(auto, unfolding(crate::specs::Kinds::good_kind, crate::specs::Kinds::kind_row, crate::specs::Kinds::kinds, crate::specs::Answers::promoted_answer))]
    pub fn promote(kind: u8) -> Result<Option<u8>, BadNumber>
        ensures { form_given result ≡ promoted_answer kind }
    {
        match kind {
            1..=4 => Ok(Some(kind + 8)),
            6..=7 => Ok(Some(kind + 7)),
            1..=14 => Ok(None),
            _ => Err(BadNumber),
        }
    }

    // The unpromoted form; a kind that is not promoted is its own.
    #[tactic(auto, unfolding(crate::specs::Kinds::good_kind, crate::specs::Kinds::kind_row, crate::specs::Kinds::kinds, crate::specs::Answers::unpromoted_answer))]
    pub fn unpromote(kind: u8) -> Result<u8, BadNumber>
        ensures { number_given result ≡ unpromoted_answer kind }
    {
        match kind {
            1..=8 => Ok(kind),
            9..=12 => Ok(kind - 8),
            13..=14 => Ok(kind - 7),
            _ => Err(BadNumber),
        }
    }

    // How many a full set has, promoted and unpromoted together: of kings one for each colour.
    #[tactic(auto, unfolding(crate::specs::Kinds::good_kind, crate::specs::Kinds::kind_row, crate::specs::Kinds::kinds, crate::specs::Answers::limit_answer))]
    pub fn limit(kind: u8) -> Result<u8, BadNumber>
        ensures { number_given result ≡ limit_answer kind }
    {
        match kind {
            1 | 9 => Ok(18),
            2..=5 | 10..=12 => Ok(4),
            6..=7 | 13..=14 => Ok(2),
            8 => Ok(1),
            _ => Err(BadNumber),
        }
    }

    // The byte of the capital letter, P L N S G B R K; a promoted kind has its unpromoted kind's.
    #[tactic(auto, unfolding(crate::specs::Kinds::good_kind, crate::specs::Kinds::kind_row, crate::specs::Kinds::kinds, crate::specs::Answers::letter_answer))]
    pub fn letter(kind: u8) -> Result<u8, BadNumber>
        ensures { number_given result ≡ letter_answer kind }
    {
        match kind {
            1..=8 => Ok(Self::unpromoted_letter(kind)),
            9..=12 => Ok(Self::unpromoted_letter(kind - 8)),
            13..=14 => Ok(Self::unpromoted_letter(kind - 7)),
            _ => Err(BadNumber),
        }
    }

    #[tactic(auto, unfolding(crate::specs::Kinds::kind_row, crate::specs::Kinds::kinds))]
    fn unpromoted_letter(kind: u8) -> u8
        requires { (1 ≤ kind) × (kind ≤ 8) }
        ensures { result ≡ (kind_row kind).letter }
    {
        match kind {
            1 => b'P',
            2 => b'L',
            3 => b'N',
            4 => b'S',
            5 => b'G',
            6 => b'B',
            7 => b'R',
            _ => b'K',
        }
    }

    // The kind as which a piece is held in hand: its unpromoted kind, and nothing for a king.
    #[tactic(auto, unfolding(crate::specs::Kinds::good_kind, crate::specs::Kinds::hand_kind, crate::specs::Kinds::kind_row, crate::specs::Kinds::kinds, crate::specs::Answers::hand_kind_answer))]
    pub fn hand_kind(kind: u8) -> Result<Option<u8>, BadNumber>
        ensures { form_given result ≡ hand_kind_answer kind }
    {
        match kind {
            1..=7 => Ok(Some(kind)),
            9..=12 => Ok(Some(kind - 8)),
            13..=14 => Ok(Some(kind - 7)),
            1..=14 => Ok(None),
            _ => Err(BadNumber),
        }
    }
}
