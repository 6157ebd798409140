// Merge, inside a delete (document 01, "The thirty steps"): the requests, steps 23 to 25, and the giving up of all locks, step 30.
// Main statements: each step_NN is the model's stepNN, for every word that the memory may hold.

#![tactic(auto)]

ghost use Rattle.std.specs.Prelude.{◌≡◌, List, ℕ};
ghost use Rattle.model.specs.Steps.MergeLocks as MergeLocks;
ghost use Rattle.records.specs.Work.{seen, left, AtHand};
ghost use Rattle.lock_requests.specs.Locks.{CanLock};

use lock_requests::Lock;
use model::{ChainAddress, Mode, Party, Refusal, Restructuring, StepAnswer};
use records::Working;

// "23 request exclusive on root."
#[tactic(auto, unfolding(model::specs::Steps::MergeLocks::step23))]
pub fn step_23(work: &mut Working, locks: &mut [u32]) -> Result<StepAnswer, Refusal>
    requires { CanLock work.old locks.old }
    ensures { (ps : List ℕ) → left result work.new locks.new ps ≡ MergeLocks.step23 (seen work.old locks.old ps) }
{
    Ok(lock_requests::request(work, locks, Lock::root(Mode::Exclusive), 24))
}

// "24 if n = N give up root, done, merge skipped. ... Request exclusive on the target." "Grants at 16 and 24 set chain and other chain".
#[tactic(auto, unfolding(model::specs::Steps::MergeLocks::step24, model::specs::Steps::MergeLocks::merging))]
pub fn step_24(
    work: &mut Working,
    locks: &mut [u32],
    pages: &mut [u32],
) -> Result<StepAnswer, Refusal>
    requires { AtHand work.old locks.old pages.old }
    ensures { left result work.new locks.new pages.new ≡ MergeLocks.step24 (seen work.old locks.old pages.old) }
{
    if addresses::merge_barred(work.root) {
        let made = Restructuring::MergeSkipped;
        return last_locks::ended_with(work, locks, pages, &[Lock::root(Mode::Exclusive)], made);
    }
    let target = addresses::merge_target(work.root);
    let granted = Party {
        step: 25,
        chain: target.0,
        other: addresses::merge_partner(work.root).0,
        ..work.party
    };
    let lock = Lock::chain(target, Mode::Exclusive);
    Ok(lock_requests::request_for(work, locks, lock, granted))
}

// "25 on the partner."
#[tactic(auto, unfolding(model::specs::Steps::MergeLocks::step25))]
pub fn step_25(work: &mut Working, locks: &mut [u32]) -> Result<StepAnswer, Refusal>
    requires { CanLock work.old locks.old }
    ensures { (ps : List ℕ) → left result work.new locks.new ps ≡ MergeLocks.step25 (seen work.old locks.old ps) }
{
    let lock = Lock::chain(ChainAddress(work.party.other), Mode::Exclusive);
    Ok(lock_requests::request(work, locks, lock, 26))
}

// "30 give up all, done."
#[tactic(auto, unfolding(model::specs::Steps::MergeLocks::step30))]
pub fn step_30(
    work: &mut Working,
    locks: &mut [u32],
    pages: &mut [u32],
) -> Result<StepAnswer, Refusal>
    requires { AtHand work.old locks.old pages.old }
    ensures { left result work.new locks.new pages.new ≡ MergeLocks.step30 (seen work.old locks.old pages.old) }
{
    let claimed = last_locks::merge_locks(work.party, Mode::Selective);
    last_locks::ended_with(work, locks, pages, &claimed, Restructuring::Merged)
}
