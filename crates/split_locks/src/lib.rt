// The locks of a split, inside an insert (document 01, "The thirty steps"): steps 15, 16, 19 and 22, which request them and give them up.
// Main statements: each step_NN is the model's stepNN, for every word that the memory may hold.

#![tactic(auto)]

ghost use Rattle.std.specs.Prelude.{◌≡◌, List, ℕ};
ghost use Rattle.model.specs.Steps.SplitLocks as SplitLocks;
ghost use Rattle.records.specs.Work.{seen, left, AtHand};
ghost use Rattle.lock_requests.specs.Locks.{CanLock};
ghost use Rattle.endings.specs.Scratch.{HasScratch};
ghost use Rattle.split_locks.specs.Leaving.{split_made};

use lock_requests::Lock;
use model::{ChainAddress, Mode, Party, Refusal, Restructuring, SPLIT_MADE, StepAnswer};
use records::Working;

// "15 request selective on root."
#[tactic(auto, unfolding(model::specs::Steps::SplitLocks::step15))]
pub fn step_15(work: &mut Working, locks: &mut [u32]) -> Result<StepAnswer, Refusal>
    requires { CanLock work.old locks.old }
    ensures { (ps : List ℕ) → left result work.new locks.new ps ≡ SplitLocks.step15 (seen work.old locks.old ps) }
{
    Ok(lock_requests::request(work, locks, Lock::root(Mode::Selective), 16))
}

// "16 if n = P give up root, done, split skipped; else request selective on chain next." "Grants at 16 and 24 set chain and other chain".
#[tactic(auto, unfolding(model::specs::Steps::SplitLocks::step16, model::specs::Steps::SplitLocks::splitting))]
pub fn step_16(
    work: &mut Working,
    locks: &mut [u32],
    pages: &mut [u32],
) -> Result<StepAnswer, Refusal>
    requires { AtHand work.old locks.old pages.old }
    ensures { left result work.new locks.new pages.new ≡ SplitLocks.step16 (seen work.old locks.old pages.old) }
{
    if addresses::split_barred(work.root) {
        let made = Restructuring::SplitSkipped;
        return last_locks::ended_with(work, locks, pages, &[Lock::root(Mode::Selective)], made);
    }
    let next = ChainAddress(work.root.next);
    let granted = Party {
        step: 17,
        chain: next.0,
        other: addresses::chain_count(work.root),
        ..work.party
    };
    let lock = Lock::chain(next, Mode::Selective);
    Ok(lock_requests::request_for(work, locks, lock, granted))
}

// "19 give up the chain."
#[tactic(auto, unfolding(model::specs::Steps::SplitLocks::step19))]
pub fn step_19(work: &mut Working, locks: &mut [u32]) -> Result<StepAnswer, Refusal>
    requires { CanLock work.old locks.old }
    ensures { (ps : List ℕ) → left result work.new locks.new ps ≡ SplitLocks.step19 (seen work.old locks.old ps) }
{
    let lock = Lock::chain(ChainAddress(work.party.chain), Mode::Selective);
    lock_requests::release(work, locks, lock, 20)
}

// "22 ... owed becomes 3; then 13 and 14 on the old chain if it has old pages, else done": once root is given up.
#[tactic(auto, unfolding(model::specs::Endings::old_pages_first))]
fn root_left(work: &mut Working, pages: &mut [u32]) -> StepAnswer
    requires { HasScratch work.old.root work.old.number pages.old }
    ensures { (ls : List ℕ) → left (Ok result) work.new ls pages.new ≡ split_made (seen work.old ls pages.old) }
{
    work.party.owed = SPLIT_MADE;
    if work.party.old == 0 {
        return endings::finished(work, pages);
    }
    work.party.step = 13;
    StepAnswer::Moved
}

// "22 give up root".
#[tactic(auto, unfolding(model::specs::Steps::SplitLocks::step22))]
pub fn step_22(
    work: &mut Working,
    locks: &mut [u32],
    pages: &mut [u32],
) -> Result<StepAnswer, Refusal>
    requires { AtHand work.old locks.old pages.old }
    ensures { left result work.new locks.new pages.new ≡ SplitLocks.step22 (seen work.old locks.old pages.old) }
{
    lock_requests::give_up(&*work, locks, &[Lock::root(Mode::Selective)])?;
    Ok(root_left(work, pages))
}
