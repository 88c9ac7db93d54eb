// The SFEN text of a position, written into bytes that the caller lends.
#![tactic(auto)]

mod board;
mod hands;
mod letters;
mod line;
mod write;

pub use write::{TextAnswer, write_sfen};
