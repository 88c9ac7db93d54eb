// The answer to a line, number by number.
use crate::line::MOST;
use arrayvec::ArrayVec;
use position::{Refusal, Told};
use squares::BadNumber;

// A value that stands in an answer as one number or more.
pub trait Value: Copy {
    // How many numbers; where a call is refused, so many zeros stand for its value.
    const COUNT: usize = 1;

    fn put(self, answer: &mut Answer) -> Option<()>;
}

// No answer has as many numbers as a line may have: the longest, of a game of 255 moves, has 559.
#[derive(Drop)]
pub struct Answer {
    numbers: ArrayVec<u64, MOST>,
}

// Each call hands back `None` where the answer is full.
impl Answer {
    pub fn new() -> Self {
        Self {
            numbers: ArrayVec::new(),
        }
    }

    pub fn clear(&mut self) {
        self.numbers.clear();
    }

    pub fn as_slice(&self) -> &[u64] {
        self.numbers.as_slice()
    }

    pub fn push(&mut self, n: u64) -> Option<()> {
        self.numbers.try_push(n).ok()
    }

    // Of a call that is never refused.
    pub fn put_done<T: Value>(&mut self, value: T) -> Option<()> {
        self.push(0)?;
        value.put(self)
    }

    // Why a call was refused, and zeros in place of its value; or zeros in place of the reason, and the value.
    pub fn put_result<T: Value, E: Value>(&mut self, told: Result<T, E>) -> Option<()> {
        match told {
            Ok(value) => {
                self.push_zeros(E::COUNT)?;
                value.put(self)
            }
            Err(reason) => {
                reason.put(self)?;
                self.push_zeros(T::COUNT)
            }
        }
    }

    pub fn put_all<T: Value>(&mut self, values: &[T]) -> Option<()> {
        for value in values {
            value.put(self)?;
        }
        Some(())
    }

    fn push_zeros(&mut self, count: usize) -> Option<()> {
        for _ in 0..count {
            self.push(0)?;
        }
        Some(())
    }
}

impl Value for () {
    const COUNT: usize = 0;

    fn put(self, _answer: &mut Answer) -> Option<()> {
        Some(())
    }
}

// The number types have an impl each: one for all that convert into u64 could meet those of arrays and of Option.
impl Value for u8 {
    fn put(self, answer: &mut Answer) -> Option<()> {
        answer.push(u64::from(self))
    }
}

impl Value for u16 {
    fn put(self, answer: &mut Answer) -> Option<()> {
        answer.push(u64::from(self))
    }
}

impl Value for usize {
    fn put(self, answer: &mut Answer) -> Option<()> {
        answer.push(self as u64) // usize has no From into u64
    }
}

impl Value for bool {
    fn put(self, answer: &mut Answer) -> Option<()> {
        answer.push(u64::from(self))
    }
}

impl<const N: usize> Value for [u8; N] {
    const COUNT: usize = N;

    fn put(self, answer: &mut Answer) -> Option<()> {
        answer.put_all(&self)
    }
}

// Nothing is zeros.
impl<T: Value> Value for Option<T> {
    const COUNT: usize = T::COUNT;

    fn put(self, answer: &mut Answer) -> Option<()> {
        match self {
            Some(value) => value.put(answer),
            None => answer.push_zeros(T::COUNT),
        }
    }
}

impl Value for BadNumber {
    fn put(self, answer: &mut Answer) -> Option<()> {
        answer.push(2)
    }
}

impl Value for Refusal {
    const COUNT: usize = 2;

    fn put(self, answer: &mut Answer) -> Option<()> {
        let told = Told::from(self);
        [told.number, told.square].put(answer)
    }
}
