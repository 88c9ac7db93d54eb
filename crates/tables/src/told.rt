// What a call answers, as text.
use squares::BadNumber;
use std::fmt;

// The answer number and the value, which is 0 where the call is refused and where it answers nothing.
#[derive(Clone, Copy)]
pub struct Told(pub Result<u8, BadNumber>);

impl From<Result<Option<u8>, BadNumber>> for Told {
    fn from(answer: Result<Option<u8>, BadNumber>) -> Self {
        Self(answer.map(|value| value.unwrap_or(0)))
    }
}

impl fmt::Display for Told {
    fn fmt<W: fmt::Write>(&self, f: &mut fmt::Formatter<W>) -> fmt::Result {
        match self.0 {
            Ok(value) => write!(f, "0 {value}"),
            Err(BadNumber) => write!(f, "2 0"),
        }
    }
}
