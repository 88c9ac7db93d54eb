// Positions and moves: the plain machine of cells and hands, with the sets that follow them.
#![tactic(auto)]

mod answers;
mod carry;
mod cells;
mod counts;
mod edits;
mod fault;
mod hand;
mod moves;
mod mv;
mod plan;
mod position;
mod queries;
mod sound;
mod tidy;

pub use answers::{Refusal, Told, ToldNumber, ToldPly, ToldSet};
pub use mv::{Move, MoveNumbers};
pub use position::Position;
