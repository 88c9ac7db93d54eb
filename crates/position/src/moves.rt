// make_move: the refusals in their order, and the two kinds of move.
ghost use Rattle.std.specs.Prelude.{◌≡◌, ◌&&◌, ◌||◌, eqb, leb};
ghost use Rattle.squares.specs.Kinds.{colour_of, kind_of, promoted_piece};
ghost use Rattle.position.specs.Sound.{top_ply};
ghost use Rattle.position.specs.Answers.{told_given, first_fact, answer_given};
ghost use Rattle.position.specs.Moves.{normal_facts, drop_facts, move_played};
ghost use Rattle.position.specs.Inner.{told_first};
ghost use Rattle.position.specs.Plans.{Ready, Planned};

use crate::answers::Refusal;
use crate::cells::{cell, color_of, kind_of, promoted, stands_on};
use crate::hand::{hold, in_hand, spend};
use crate::mv::{Move, bad_move};
use crate::plan::{Plan, drop_plan, normal_plan};
use crate::position::Position;
use crate::sound::checked;

// ---- the facts of a move, each by itself and of just the numbers that it speaks of, as `normal_facts` and `drop_facts` have them

fn is_of(cell: u8, color: u8) -> bool
    ensures { result ≡ eqb (colour_of cell) color }
{
    color_of(cell) == color
}

fn has_no_form(promote: bool, piece: u8) -> bool
    ensures { result ≡ promote && eqb (promoted_piece piece) 0 }
{
    promote && promoted(piece) == 0
}

fn is_king(cell: u8) -> bool
    ensures { result ≡ eqb (kind_of cell) 8 }
{
    kind_of(cell) == 8
}

fn is_promoted(piece: u8) -> bool
    ensures { result ≡ leb 9 (kind_of piece) }
{
    9 <= kind_of(piece)
}

fn is_not_held(piece: u8, count: u8) -> bool
    ensures { result ≡ eqb (kind_of piece) 8 || eqb count 0 }
{
    is_king(piece) || count == 0
}

#[tactic(auto, unfolding(crate::specs::Sound::top_ply))]
fn is_last(ply: u16) -> bool
    ensures { result ≡ eqb ply top_ply }
{
    ply == Position::TOP_PLY
}

// Why a piece may not go where `target` stands, if it may not: the facts 4 to 7 and 11. (Fact 3, no piece, is the caller's: of 0 it
// would come first.)
#[tactic(auto, unfolding(crate::specs::Answers::first_fact, crate::specs::Moves::normal_facts))]
fn allow_normal(piece: u8, target: u8, promote: bool, side: u8, ply: u16) -> Result<(), Refusal>
    requires { piece ≡ 0 → ⊥ }
    ensures { told_given result ≡ told_first (normal_facts piece target promote side ply) }
{
    if !is_of(piece, side) {
        return Err(Refusal::OtherSide);
    }
    if has_no_form(promote, piece) {
        return Err(Refusal::NoPromotedForm);
    }
    if is_of(target, side) {
        return Err(Refusal::OwnPiece);
    }
    if is_king(target) {
        return Err(Refusal::TakesKing);
    }
    if is_last(ply) {
        return Err(Refusal::LastPly);
    }
    Ok(())
}

// Why `piece`, of which `count` are in hand, may not be dropped where `target` stands, if it may not.
#[tactic(auto, unfolding(crate::specs::Answers::first_fact, crate::specs::Moves::drop_facts))]
fn allow_drop(piece: u8, target: u8, count: u8, side: u8, ply: u16) -> Result<(), Refusal>
    ensures { told_given result ≡ told_first (drop_facts piece target count side ply) }
{
    if !is_of(piece, side) {
        return Err(Refusal::OtherSide);
    }
    if is_promoted(piece) {
        return Err(Refusal::PromotedDrop);
    }
    if target != 0 {
        return Err(Refusal::Occupied);
    }
    if is_not_held(piece, count) {
        return Err(Refusal::NotInHand);
    }
    if is_last(ply) {
        return Err(Refusal::LastPly);
    }
    Ok(())
}

// ---- what a move would do, of a sound position and good numbers (`Ready`: of two values, so that it is no type's invariant)

// From, to and promote are passed as the move has them: they are the move.
fn make_normal(p: &Position, from: u8, to: u8, promote: bool) -> Result<Plan, Refusal>
    requires { Ready p.now (Move.Normal from to promote) }
    ensures { Planned p.now (Move.Normal from to promote) result }
{
    let Some(piece) = stands_on(&p.board, from) else {
        return Err(Refusal::NothingThere);
    };
    let target = cell(&p.board, to);
    allow_normal(piece, target, promote, p.side, p.ply)?;
    let mut hands = p.hands;
    if let Some(taken) = stands_on(&p.board, to) {
        let more = hold(hands, p.side, taken);
        hands = more;
    }
    Ok(normal_plan(from, to, promote, piece, target, hands))
}

fn make_drop(p: &Position, piece: u8, to: u8) -> Result<Plan, Refusal>
    requires { Ready p.now (Move.Drop piece to) }
    ensures { Planned p.now (Move.Drop piece to) result }
{
    let target = cell(&p.board, to);
    let count = in_hand(p.hands, p.side, piece);
    allow_drop(piece, target, count, p.side, p.ply)?;
    let hands = spend(p.hands, p.side, piece);
    Ok(drop_plan(piece, to, hands))
}

fn make_plan(p: &Position, m: Move) -> Result<Plan, Refusal>
    requires { Ready p.now m }
    ensures { Planned p.now m result }
{
    match m {
        Move::Normal { from, to, promote } => make_normal(p, from, to, promote),
        Move::Drop { piece, to } => make_drop(p, piece, to),
    }
}

impl Position {
    pub fn make_move(self, m: Move) -> Result<Position, Refusal>
        ensures { answer_given self result ≡ move_played self m }
    {
        checked(bad_move(m), &self)?;
        let plan = make_plan(&self, m)?;
        // The sets follow: what left, what was taken and what arrives change theirs. Where a move has none of these, toggling 0
        // changes nothing.
        let mut next = self;
        next.store(plan);
        next.toggle(plan.left, plan.from);
        next.toggle(plan.taken, plan.to);
        next.toggle(plan.piece, plan.to);
        Ok(next)
    }
}
