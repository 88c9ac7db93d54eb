// The answers of the crates below as C sees them, structs of numbers: specs/Shown.antt says which. Each has its own fields in
// include/pulfredan.h, so no one generic struct can stand for them. Their `From`s differ as their fields do, and an impl by a macro is
// refused by the gate.
ghost use Rattle.std.specs.Prelude.{◌≡◌};
ghost use Rattle.squares.specs.Answers.{number_given, form_given, set_given, truth_given, pop_given};
ghost use Rattle.firmware.specs.Shown.{number_shown, form_shown, set_shown, truth_shown, pattern_shown, pop_shown};

use position::{MoveNumbers, Told};
use squares::{BadNumber, Bitboard};

#[repr(C)]
#[derive(Clone, Copy)]
pub struct CNumber {
    pub number: u8,
    pub value: u8,
}

#[repr(C)]
#[derive(Clone, Copy)]
pub struct CSet {
    pub number: u8,
    pub set: Bitboard,
}

#[repr(C)]
#[derive(Clone, Copy)]
pub struct CTruth {
    pub number: u8,
    pub truth: bool,
}

#[repr(C)]
#[derive(Clone, Copy)]
pub struct CPattern {
    pub number: u8,
    pub pattern: u16,
}

// Square 0 of the empty set.
#[repr(C)]
#[derive(Clone, Copy)]
pub struct CPop {
    pub square: u8,
    pub set: Bitboard,
}

// Four zeros where there is no last move.
#[repr(C)]
#[derive(Clone, Copy)]
pub struct CLast {
    pub told: Told,
    pub last: MoveNumbers,
}

impl From<Result<u8, BadNumber>> for CNumber {
    ghost from_gives = { λ answer shown. shown ≡ number_shown (number_given answer) };

    fn from(answer: Result<u8, BadNumber>) -> Self {
        match answer {
            Ok(value) => Self { number: 0, value },
            Err(BadNumber) => Self {
                number: 2,
                value: 0,
            },
        }
    }
}

// 0 where there is no such form.
impl From<Result<Option<u8>, BadNumber>> for CNumber {
    ghost from_gives = { λ answer shown. shown ≡ form_shown (form_given answer) };

    fn from(answer: Result<Option<u8>, BadNumber>) -> Self {
        match answer {
            Ok(Some(value)) => Self { number: 0, value },
            Ok(None) => Self {
                number: 0,
                value: 0,
            },
            Err(BadNumber) => Self {
                number: 2,
                value: 0,
            },
        }
    }
}

impl From<Result<Bitboard, BadNumber>> for CSet {
    ghost from_gives = { λ answer shown. shown ≡ set_shown (set_given answer) };

    fn from(answer: Result<Bitboard, BadNumber>) -> Self {
        match answer {
            Ok(set) => Self { number: 0, set },
            Err(BadNumber) => Self {
                number: 2,
                set: Bitboard::empty(),
            },
        }
    }
}

impl From<Result<bool, BadNumber>> for CTruth {
    ghost from_gives = { λ answer shown. shown ≡ truth_shown (truth_given answer) };

    fn from(answer: Result<bool, BadNumber>) -> Self {
        match answer {
            Ok(truth) => Self { number: 0, truth },
            Err(BadNumber) => Self {
                number: 2,
                truth: false,
            },
        }
    }
}

impl From<Result<u16, BadNumber>> for CPattern {
    ghost from_gives = { λ answer shown. shown ≡ pattern_shown (number_given answer) };

    // Otherwise the compiler turns the two arms into a choice without a jump before it brings them into `pulfredan_set_get_file`, which
    // then takes half as many instructions again.
    #[inline(always)]
    fn from(answer: Result<u16, BadNumber>) -> Self {
        match answer {
            Ok(pattern) => Self { number: 0, pattern },
            Err(BadNumber) => Self {
                number: 2,
                pattern: 0,
            },
        }
    }
}

impl From<Option<(u8, Bitboard)>> for CPop {
    ghost from_gives = { λ answer shown. shown ≡ pop_shown (pop_given answer) };

    fn from(answer: Option<(u8, Bitboard)>) -> Self {
        match answer {
            Some((square, set)) => Self { square, set },
            None => Self {
                square: 0,
                set: Bitboard::empty(),
            },
        }
    }
}
