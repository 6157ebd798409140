// The chain changed in the file, for insert and delete (document 01, "The thirty steps"): steps 11 and 12, and where 12 and 14 lead.
// Main statements: step_11 and step_12 are the model's step11 and step12, for every word that the memory may hold; onward is the model's onward.

#![tactic(auto)]

ghost use Rattle.std.specs.Prelude.{◌≡◌, List, ℕ};
ghost use Rattle.model.specs.Endings as Endings;
ghost use Rattle.model.specs.Steps.Write as Write;
ghost use Rattle.records.specs.Work.{seen, left, AtHand};
ghost use Rattle.endings.specs.Scratch.{HasScratch};
ghost use Rattle.write.specs.Leaving.{after_leaving};

use lock_requests::Lock;
use model::{ChainAddress, DELETED, INSERTED, Mode, OWES_MERGE, OWES_SPLIT, Refusal, StepAnswer};
use records::Working;

// "an owed split goes to 15 and an owed merge to 23; else the operation is done".
#[tactic(auto, unfolding(model::specs::Endings::onward))]
pub fn onward(work: &mut Working, pages: &mut [u32]) -> StepAnswer
    requires { HasScratch work.old.root work.old.number pages.old }
    ensures { (ls : List ℕ) → left (Ok result) work.new ls pages.new ≡ Endings.onward (seen work.old ls pages.old) }
{
    match work.party.owed {
        OWES_SPLIT => work.party.step = 15,
        OWES_MERGE => work.party.step = 23,
        _ => return endings::finished(work, pages),
    }
    StepAnswer::Moved
}

// "11 write the primary page."
#[tactic(auto, unfolding(model::specs::Steps::Write::step11))]
pub fn step_11(
    work: &mut Working,
    locks: &mut [u32],
    pages: &mut [u32],
) -> Result<StepAnswer, Refusal>
    requires { AtHand work.old locks.old pages.old }
    ensures { left result work.new locks.new pages.new ≡ Write.step11 (seen work.old locks.old pages.old) }
{
    scratch_pages::primary_written(work, pages, 12)
}

// Whether an answer so far is "inserted or deleted".
#[tactic(auto, unfolding(model::specs::Steps::Write::is_change, model::specs::Answers::answer_number))]
fn is_change(answer: u32) -> bool
    ensures { result ≡ Write.is_change answer }
{
    matches!(answer, INSERTED | DELETED)
}

// Where 12 leads once the chain is given up: "done unless inserted or deleted"; to 13 "if there are old overflow pages".
#[tactic(auto, unfolding(model::specs::Endings::old_pages_first))]
fn chain_left(work: &mut Working, pages: &mut [u32]) -> StepAnswer
    requires { HasScratch work.old.root work.old.number pages.old }
    ensures { (ls : List ℕ) → left (Ok result) work.new ls pages.new ≡ after_leaving (seen work.old ls pages.old) }
{
    if !is_change(work.party.answer) {
        return endings::finished(work, pages);
    }
    if work.party.old == 0 {
        return onward(work, pages);
    }
    work.party.step = 13;
    StepAnswer::Moved
}

// "12 give up the chain; done unless inserted or deleted."
#[tactic(auto, unfolding(model::specs::Steps::Write::step12))]
pub fn step_12(
    work: &mut Working,
    locks: &mut [u32],
    pages: &mut [u32],
) -> Result<StepAnswer, Refusal>
    requires { AtHand work.old locks.old pages.old }
    ensures { left result work.new locks.new pages.new ≡ Write.step12 (seen work.old locks.old pages.old) }
{
    let lock = Lock::chain(ChainAddress(work.party.chain), Mode::Selective);
    lock_requests::give_up(&*work, locks, &[lock])?;
    Ok(chain_left(work, pages))
}
