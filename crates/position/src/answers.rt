// What the calls on a position answer: a value, or why they refuse. C is handed structs of numbers alone, in which document 01's
// answer number stands first, with the square that goes with 1: those of include/pulfredan.h, each with its own fields, so that
// no one generic struct can stand for them; nor one `From`, since an impl by a macro is refused by the gate.
ghost use Rattle.std.specs.Prelude.{◌≡◌};
ghost use Rattle.position.specs.Answers.{told_of, told_given, told_set_given, told_number_given, told_ply_given};

use squares::Bitboard;

// Document 01's answer numbers from 1 on, in their order.
#[derive(Clone, Copy, PartialEq, Eq)]
pub enum Refusal {
    // With document 01's square: the first faulty one, or 0 where the fault lies elsewhere.
    NotSound(u8),
    BadNumber,
    NothingThere,
    OtherSide,
    NoPromotedForm,
    OwnPiece,
    TakesKing,
    PromotedDrop,
    Occupied,
    NotInHand,
    LastPly,
    ShortBuffer,
    EditNotSound,
}

#[repr(C)]
#[derive(Clone, Copy)]
pub struct Told {
    pub number: u8,
    pub square: u8,
}

impl Told {
    // No number refuses.
    const DONE: Self = Self {
        number: 0,
        square: 0,
    };
}

#[repr(C)]
#[derive(Clone, Copy)]
pub struct ToldSet {
    pub told: Told,
    pub set: Bitboard,
}

#[repr(C)]
#[derive(Clone, Copy)]
pub struct ToldNumber {
    pub told: Told,
    pub value: u8,
}

#[repr(C)]
#[derive(Clone, Copy)]
pub struct ToldPly {
    pub told: Told,
    pub ply: u16,
}

impl From<Refusal> for Told {
    ghost from_gives = { λ refusal told. told ≡ told_of refusal };

    fn from(refusal: Refusal) -> Self {
        let number = match refusal {
            Refusal::NotSound(_) => 1,
            Refusal::BadNumber => 2,
            Refusal::NothingThere => 3,
            Refusal::OtherSide => 4,
            Refusal::NoPromotedForm => 5,
            Refusal::OwnPiece => 6,
            Refusal::TakesKing => 7,
            Refusal::PromotedDrop => 8,
            Refusal::Occupied => 9,
            Refusal::NotInHand => 10,
            Refusal::LastPly => 11,
            Refusal::ShortBuffer => 12,
            Refusal::EditNotSound => 13,
        };
        let square = match refusal {
            Refusal::NotSound(square) => square,
            _ => 0,
        };
        Self { number, square }
    }
}

impl From<Result<(), Refusal>> for Told {
    ghost from_gives = { λ answer told. told ≡ told_given answer };

    fn from(answer: Result<(), Refusal>) -> Self {
        match answer {
            Ok(()) => Self::DONE,
            Err(refusal) => Self::from(refusal),
        }
    }
}

impl From<Result<Bitboard, Refusal>> for ToldSet {
    ghost from_gives = { λ answer told. told ≡ told_set_given answer };

    fn from(answer: Result<Bitboard, Refusal>) -> Self {
        match answer {
            Ok(set) => Self {
                told: Told::DONE,
                set,
            },
            Err(refusal) => Self {
                told: Told::from(refusal),
                set: Bitboard::empty(),
            },
        }
    }
}

impl From<Result<u8, Refusal>> for ToldNumber {
    ghost from_gives = { λ answer told. told ≡ told_number_given answer };

    fn from(answer: Result<u8, Refusal>) -> Self {
        match answer {
            Ok(value) => Self {
                told: Told::DONE,
                value,
            },
            Err(refusal) => Self {
                told: Told::from(refusal),
                value: 0,
            },
        }
    }
}

impl From<Result<u16, Refusal>> for ToldPly {
    ghost from_gives = { λ answer told. told ≡ told_ply_given answer };

    fn from(answer: Result<u16, Refusal>) -> Self {
        match answer {
            Ok(ply) => Self {
                told: Told::DONE,
                ply,
            },
            Err(refusal) => Self {
                told: Told::from(refusal),
                ply: 0,
            },
        }
    }
}
