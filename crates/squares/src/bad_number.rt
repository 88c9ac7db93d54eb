// A number out of range: why a call of this crate is refused, and document 01's answer number 2. specs/Answers.antt gives
// the number and the values of each answer.
#[derive(Clone, Copy, PartialEq, Eq)]
pub struct BadNumber;
