// The soundness test. A sound position is known by its sets, which are built anew from its cells and compared, and by what is
// read off them; only where the sets differ are the cells searched for the first that disagrees.
ghost use Rattle.std.specs.Prelude.{◌≡◌};
ghost use Rattle.position.specs.Answers.{told_given, soundness_told, told_query};

use crate::answers::Refusal;
use crate::counts::fault_elsewhere;
use crate::fault::first_fault;
use crate::position::Position;
use crate::tidy::is_tidy;

impl Position {
    pub fn soundness(self) -> Result<(), Refusal>
        ensures { told_given result ≡ soundness_told self }
    {
        soundness(&self)
    }
}

// The same of a position that is read where it lies: nothing is copied.
pub(crate) fn soundness(p: &Position) -> Result<(), Refusal>
    ensures { told_given result ≡ soundness_told p.now }
{
    if !is_tidy(p) {
        return Err(Refusal::NotSound(first_fault(p)));
    }
    if fault_elsewhere(p) {
        return Err(Refusal::NotSound(0));
    }
    Ok(())
}

// What refuses a query before its value: 2 where its numbers are bad, then 1.
#[tactic(auto, using(crate::proofs::Tidiness::told_bad, crate::proofs::Tidiness::told_query_lem))]
pub(crate) fn checked(bad: bool, p: &Position) -> Result<(), Refusal>
    ensures { told_given result ≡ told_query bad p.now }
{
    if bad {
        return Err(Refusal::BadNumber);
    }
    soundness(p)
}
