// A line cut into numbers, a byte at a time, so that a line of any length needs no room but for its numbers.
use arrayvec::ArrayVec;

// A longer line is not of the form.
pub const MOST: usize = 1024;

// What was read last of a line.
#[derive(Clone, Copy, PartialEq, Eq)]
enum Place {
    Start,
    Gap,
    // A number, and its value so far.
    Number(u64),
}

impl Place {
    // One more digit: the value has to stay below 2^64.
    fn with_digit(self, digit: u8) -> Option<Self> {
        let value = match self {
            Place::Number(value) => value,
            Place::Start | Place::Gap => 0,
        };
        let value = value.checked_mul(10)?.checked_add(u64::from(digit))?;
        Some(Place::Number(value))
    }
}

// The numbers that have ended, and the place; none where the line is not of the form, whatever follows.
#[derive(Drop)]
pub struct Line {
    numbers: ArrayVec<u64, MOST>,
    place: Option<Place>,
}

impl Line {
    pub fn new() -> Self {
        Self {
            numbers: ArrayVec::new(),
            place: Some(Place::Start),
        }
    }

    // One more byte, which is not the newline.
    pub fn take(&mut self, b: u8) {
        self.place = self.after(b);
    }

    fn after(&mut self, b: u8) -> Option<Place> {
        match b {
            b' ' => self.end_number(),
            b'0'..=b'9' => self.place?.with_digit(b - b'0'),
            _ => None,
        }
    }

    // The number that ends here goes to the others.
    fn end_number(&mut self) -> Option<Place> {
        let Some(Place::Number(value)) = self.place else {
            return None;
        };
        self.numbers.try_push(value).ok()?;
        Some(Place::Gap)
    }

    // The numbers of the line if it ends here.
    pub fn end(&mut self) -> Option<&[u64]> {
        self.end_number()?;
        Some(self.numbers.as_slice())
    }

    // Whether any byte of the line was read.
    pub fn has_begun(&self) -> bool {
        self.place != Some(Place::Start)
    }

    pub fn clear(&mut self) {
        self.numbers.clear();
        self.place = Some(Place::Start);
    }
}
