// Sets of squares in two words: square n is bit n - 1 of the first for n up to 63, else bit n - 64 of the second. Bit
// 63 of the first and bits 18 and up of the second are stray: ignored on entry, zero in every result. Equality isn't
// derived: it would tell two words of one set apart by their stray bits.
ghost use Rattle.std.specs.Prelude.{◌≡◌, ◌<◌, ◌≤◌, nat_le};
ghost use Rattle.squares.specs.Bit.{reversed9};
ghost use Rattle.squares.specs.Sets.{has, set_of, empty_s, or_s, and_s, xor_s, andnot_s, not_s, size, is_empty, exactly, file_s, pattern_of, flip_s};
ghost use Rattle.squares.specs.Answers.{number_if, number_given, set_given, truth_given, pop_given, single_answer, contains_answer, from_file_answer, get_file_answer, pop_answer, shift_answer};

use crate::bad_number::BadNumber;

#[repr(C)]
#[derive(Clone, Copy)]
pub struct Bitboard {
    pub lo: u64,
    pub hi: u64,
}

// Where a shift goes: down adds to the rank, up subtracts, left adds to the file, right subtracts.
#[derive(Clone, Copy)]
pub enum Direction {
    Down,
    Up,
    Left,
    Right,
}

impl Bitboard {
    const MASK0: u64 = (1 << 63) - 1;

    const MASK1: u64 = (1 << 18) - 1;

    // The set that two words mean: the stray bits go.
    fn clean(lo: u64, hi: u64) -> Self
        ensures { result ≡ set_of (has (record { lo = lo; hi = hi })) }
    {
        Self {
            lo: lo & Self::MASK0,
            hi: hi & Self::MASK1,
        }
    }

    #[tactic(auto, using(crate::proofs::Members::empty_words))]
    pub fn empty() -> Self
        ensures { result ≡ empty_s }
    {
        Self { lo: 0, hi: 0 }
    }

    pub fn single(square: u8) -> Result<Self, BadNumber>
        ensures { set_given result ≡ single_answer square }
    {
        match square {
            1..=63 => Ok(Self {
                lo: 1 << (square - 1),
                hi: 0,
            }),
            64..=81 => Ok(Self {
                lo: 0,
                hi: 1 << (square - 64),
            }),
            _ => Err(BadNumber),
        }
    }

    // How many squares the set has. (`as` loses nothing of 81, and try_from would bring in a refusal that never comes.)
    #[tactic(auto, using(crate::proofs::Counts::count_words))]
    pub fn count(self) -> u8
        ensures { result ≡ size self }
    {
        ((self.lo & Self::MASK0).count_ones() + (self.hi & Self::MASK1).count_ones()) as u8
    }

    #[tactic(auto, using(crate::proofs::Lowest::empty_by_words))]
    pub fn is_empty(self) -> bool
        ensures { result ≡ is_empty self }
    {
        let kept = (self.lo & Self::MASK0) | (self.hi & Self::MASK1);
        kept == 0
    }

    // Whether it has no stray bit, and just the squares of the other: the one call that looks for stray bits, in its first set.
    #[tactic(auto, using(crate::proofs::Exact::exact_lo, crate::proofs::Exact::exact_not_lo))]
    pub fn is_exactly(self, other: Self) -> bool
        ensures { result ≡ exactly self other }
    {
        self.lo == other.lo & Self::MASK0 && self.hi == other.hi & Self::MASK1
    }

    pub fn contains(self, square: u8) -> Result<bool, BadNumber>
        ensures { truth_given result ≡ contains_answer self square }
    {
        // With the first word doubled, a square's bit is its number modulo 64 in either word: it is found, of any number, without a
        // jump, and the number is judged after it.
        let word = if square < 64 { self.lo << 1 } else { self.hi };
        let found = (word >> (square % 64)) % 2 == 1;
        match square {
            1..=81 => Ok(found),
            _ => Err(BadNumber),
        }
    }

    #[tactic(auto, using(crate::proofs::Words::or_words))]
    pub fn or(self, other: Self) -> Self
        ensures { result ≡ or_s self other }
    {
        Self::clean(self.lo | other.lo, self.hi | other.hi)
    }

    #[tactic(auto, using(crate::proofs::Words::and_words))]
    pub fn and(self, other: Self) -> Self
        ensures { result ≡ and_s self other }
    {
        Self::clean(self.lo & other.lo, self.hi & other.hi)
    }

    #[tactic(auto, using(crate::proofs::Words::xor_words))]
    pub fn xor(self, other: Self) -> Self
        ensures { result ≡ xor_s self other }
    {
        Self::clean(self.lo ^ other.lo, self.hi ^ other.hi)
    }

    // What is in the second and not in the first.
    #[tactic(auto, using(crate::proofs::Words::andnot_words))]
    pub fn andnot(self, other: Self) -> Self
        ensures { result ≡ andnot_s self other }
    {
        Self::clean(!self.lo & other.lo, !self.hi & other.hi)
    }

    // Every other square of the 81.
    #[tactic(auto, using(crate::proofs::Words::not_words))]
    pub fn not(self) -> Self
        ensures { result ≡ not_s self }
    {
        Self::clean(!self.lo, !self.hi)
    }

    // The squares of one file whose bits are set in a pattern: bit 0 is rank A.
    pub fn from_file(file: u8, pattern: u16) -> Result<Self, BadNumber>
        ensures { set_given result ≡ from_file_answer file pattern }
    {
        match (file, pattern) {
            (1..=9, 0..=511) => Ok(Self::file_set(file, pattern)),
            _ => Err(BadNumber),
        }
    }

    #[tactic(auto, using(crate::proofs::Files::file_lo, crate::proofs::Files::file_hi))]
    fn file_set(file: u8, pattern: u16) -> Self
        requires { (1 ≤ file) × (file ≤ 9) × (pattern < 512) }
        ensures { result ≡ file_s file pattern }
    {
        if file <= 7 {
            return Self {
                lo: u64::from(pattern) << (9 * (file - 1)),
                hi: 0,
            };
        }
        Self {
            lo: 0,
            hi: u64::from(pattern) << (9 * (file - 8)),
        }
    }

    // The pattern of one file: bit 0 is rank A.
    #[tactic(auto, using(crate::proofs::Steps::side_low, crate::proofs::Steps::side_high, crate::proofs::Files::pattern_good, crate::proofs::Files::pattern_bad))]
    pub fn get_file(self, file: u8) -> Result<u16, BadNumber>
        ensures { number_given result ≡ get_file_answer self file }
    {
        match file {
            1..=9 => Ok(self.file_pattern(file)),
            _ => Err(BadNumber),
        }
    }

    // (`as` as in `count`: nine bits remain.)
    #[tactic(auto, using(crate::proofs::Files::pattern_lo, crate::proofs::Files::pattern_hi))]
    fn file_pattern(self, file: u8) -> u16
        requires { (1 ≤ file) × (file ≤ 9) }
        ensures { result ≡ pattern_of self file }
    {
        if file <= 7 {
            return ((self.lo >> (9 * (file - 1))) % 512) as u16;
        }
        ((self.hi >> (9 * (file - 8))) % 512) as u16
    }

    // The nine bits of a pattern, last first. (The library's reverse_bits takes a step for each of
    // sixteen. `i` is what the loop's invariant, in proofs/, speaks of: `_` would leave it nothing to name.)
    fn reversed9(pattern: u16) -> u16
        ensures { result ≡ reversed9 pattern }
    {
        let mut rest = pattern;
        let mut turned: u16 = 0;
        for i in 0..9u8 {
            turned = 2 * turned + rest % 2;
            rest /= 2;
        }
        turned
    }

    // Each square n goes to 82 - n: file f, reversed, becomes file 10 - f.
    pub fn flip(self) -> Self
        ensures { result ≡ flip_s self }
    {
        let mut turned = Self::empty();
        for file in 1..10u8 {
            let pattern = Self::reversed9(self.file_pattern(file));
            turned = turned.or(Self::file_set(10 - file, pattern));
        }
        turned
    }

    // The smallest square, and the set without it. A word's lowest bit goes by subtracting one with wrap and masking. (`as` as in
    // `count`.)
    pub fn pop(self) -> Option<(u8, Self)>
        ensures { pop_given result ≡ pop_answer self }
    {
        let lo = self.lo & Self::MASK0;
        let hi = self.hi & Self::MASK1;
        if lo != 0 {
            let square = lo.trailing_zeros() + 1;
            let rest = lo & lo.wrapping_sub(1);
            return Some((square as u8, Self { lo: rest, hi }));
        }
        if hi != 0 {
            let square = hi.trailing_zeros() + 64;
            let rest = hi & hi.wrapping_sub(1);
            return Some((square as u8, Self { lo: 0, hi: rest }));
        }
        None
    }

    // Every square moved by delta, 0 to 9; squares that leave the board vanish. (One arm for each of four calls that C has too: their
    // bodies differ in more than a constant.)
    pub fn shift(self, dir: Direction, delta: u8) -> Result<Self, BadNumber>
        ensures { set_given result ≡ shift_answer dir delta self }
    {
        match dir {
            Direction::Down => self.shift_down(delta),
            Direction::Up => self.shift_up(delta),
            Direction::Left => self.shift_left(delta),
            Direction::Right => self.shift_right(delta),
        }
    }

    // Downwards squares grow within their file: a word moves up, and `mask` keeps the ranks below the first `by`. (`top` has the bit
    // behind each file's last, from which subtracting takes `by` bits off; a stray bit reaches none of the ranks kept.)
    pub fn shift_down(self, delta: u8) -> Result<Self, BadNumber>
        ensures { set_given result ≡ shift_answer Direction.Down delta self }
    {
        let by = Self::distance(delta)?;
        let top: u64 = 0x8040_2010_0804_0200;
        let mask = top - (top >> (9 - by));
        Ok(Self::clean((self.lo << by) & mask, (self.hi << by) & mask))
    }

    // The same downwards, with the first bit of each file: the ranks above the last `by` are kept.
    pub fn shift_up(self, delta: u8) -> Result<Self, BadNumber>
        ensures { set_given result ≡ shift_answer Direction.Up delta self }
    {
        let by = Self::distance(delta)?;
        let bottom: u64 = 0x40_2010_0804_0201;
        let mask = (bottom << (9 - by)) - bottom;
        Ok(Self::clean((self.lo >> by) & mask, (self.hi >> by) & mask))
    }

    // Files grow to the left: whole files move up, and those above the seventh go on in the second word.
    pub fn shift_left(self, delta: u8) -> Result<Self, BadNumber>
        ensures { set_given result ≡ shift_answer Direction.Left delta self }
    {
        let by = 9 * Self::distance(delta)?;
        let lo = self.lo & Self::MASK0;
        let hi = self.hi & Self::MASK1;
        if by <= 63 {
            return Ok(Self::clean(lo << by, (hi << by) | (lo >> (63 - by))));
        }
        Ok(Self::clean(0, lo << (by - 63)))
    }

    pub fn shift_right(self, delta: u8) -> Result<Self, BadNumber>
        ensures { set_given result ≡ shift_answer Direction.Right delta self }
    {
        let by = 9 * Self::distance(delta)?;
        let lo = self.lo & Self::MASK0;
        let hi = self.hi & Self::MASK1; // a stray bit would come down onto the board
        if by <= 63 {
            return Ok(Self::clean((lo >> by) | (hi << (63 - by)), hi >> by));
        }
        Ok(Self::clean(hi >> (by - 63), 0))
    }

    // By how much a shift may move.
    fn distance(delta: u8) -> Result<u8, BadNumber>
        ensures { number_given result ≡ number_if (nat_le delta 9) delta }
    {
        match delta {
            0..=9 => Ok(delta),
            _ => Err(BadNumber),
        }
    }
}
