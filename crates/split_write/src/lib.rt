// What a split writes in the file and the root, inside an insert (document 01, "The thirty steps"): step 18 the old
// primary page, steps 20 and 21 next and level.
// Main statements: each step_NN is the model's stepNN, for every word that the memory may hold.

#![tactic(auto)]

ghost use Rattle.std.specs.Prelude.{◌≡◌};
ghost use Rattle.model.specs.Steps.SplitWrite as SplitWrite;
ghost use Rattle.records.specs.Work.{seen, left, AtHand};

use model::{Refusal, StepAnswer};
use records::Working;

// "18 write the old chain's primary page."
#[tactic(auto, unfolding(model::specs::Steps::SplitWrite::step18))]
pub fn step_18(
    work: &mut Working,
    locks: &mut [u32],
    pages: &mut [u32],
) -> Result<StepAnswer, Refusal>
    requires { AtHand work.old locks.old pages.old }
    ensures { left result work.new locks.new pages.new ≡ SplitWrite.step18 (seen work.old locks.old pages.old) }
{
    scratch_pages::primary_written(work, pages, 19)
}

// "20 next becomes (next + 1) mod (N × 2^level)."
#[tactic(auto, unfolding(model::specs::Steps::SplitWrite::step20))]
pub fn step_20(
    work: &mut Working,
    locks: &mut [u32],
    pages: &mut [u32],
) -> Result<StepAnswer, Refusal>
    requires { AtHand work.old locks.old pages.old }
    ensures { left result work.new locks.new pages.new ≡ SplitWrite.step20 (seen work.old locks.old pages.old) }
{
    work.root.next = addresses::split_next(work.root);
    work.party.step = 21;
    Ok(StepAnswer::Moved)
}

// "21 if next is 0, raise level."
// Of another field than 20: one function for both would be given the field as a closure.
#[tactic(auto, unfolding(model::specs::Steps::SplitWrite::step21))]
pub fn step_21(
    work: &mut Working,
    locks: &mut [u32],
    pages: &mut [u32],
) -> Result<StepAnswer, Refusal>
    requires { AtHand work.old locks.old pages.old }
    ensures { left result work.new locks.new pages.new ≡ SplitWrite.step21 (seen work.old locks.old pages.old) }
{
    work.root.level = addresses::split_level(work.root);
    work.party.step = 22;
    Ok(StepAnswer::Moved)
}
