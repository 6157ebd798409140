// The old overflow pages, for insert and delete (document 01, "The thirty steps"): steps 13 and 14, which lock their chain and give them back.
// Main statements: step_13 and step_14 are the model's step13 and step14, for every word that the memory may hold.

#![tactic(auto)]

ghost use Rattle.std.specs.Prelude.{◌≡◌, true};
ghost use Rattle.model.specs.Pages.{names_overflow};
ghost use Rattle.model.specs.Chains.{list_from};
ghost use Rattle.model.specs.Steps.OldPages as OldPages;
ghost use Rattle.records.specs.Work.{seen, left, AtHand};
ghost use Rattle.chains.specs.Walks.{counted};
ghost use Rattle.free_list.specs.Giving.{listed};

use lock_requests::Lock;
use model::{ChainAddress, Mode, Refusal, StepAnswer};
use records::Working;

// "13, if there are old overflow pages, request exclusive on the chain."
#[tactic(auto, unfolding(model::specs::Steps::OldPages::step13))]
pub fn step_13(
    work: &mut Working,
    locks: &mut [u32],
    pages: &mut [u32],
) -> Result<StepAnswer, Refusal>
    requires { AtHand work.old locks.old pages.old }
    ensures { left result work.new locks.new pages.new ≡ OldPages.step13 (seen work.old locks.old pages.old) }
{
    if !chains::names_overflow(work.root, work.party.old) {
        return Err(Refusal::Damage);
    }
    let lock = Lock::chain(ChainAddress(work.party.chain), Mode::Exclusive);
    Ok(lock_requests::request(work, locks, lock, 14))
}

// The n old pages are given back, the old link zeroed, the chain given up. "a free count that giving back would take above V" is damage, and so is
// "a lock given up ... that is not held".
#[tactic(auto, unfolding(model::specs::Steps::OldPages::old_given_back))]
fn old_given_back(
    work: &mut Working,
    n: u32,
    locks: &mut [u32],
    pages: &mut [u32],
) -> Result<StepAnswer, Refusal>
    requires { (AtHand work.old locks.old pages.old) × (names_overflow work.old.root work.old.party.old ≡ true) × (counted (list_from work.old.root pages.old work.old.party.old) ≡ Ok n) }
    ensures { left result work.new locks.new pages.new ≡ OldPages.old_given_back (seen work.old locks.old pages.old) (listed (list_from work.old.root pages.old work.old.party.old)) }
{
    if work.root.overflow < work.root.free + n {
        return Err(Refusal::Damage);
    }
    let held = Lock::chain(ChainAddress(work.party.chain), Mode::Exclusive);
    lock_requests::give_up(&*work, locks, &[held])?;
    work.root = free_list::give_back(work.root, work.party.old, n, pages);
    work.party.old = 0;
    Ok(write::onward(work, pages))
}

// "14 give them back in chain order, zero the old link and give up the lock." The list is walked to its end before a word is written.
#[tactic(auto, unfolding(model::specs::Steps::OldPages::step14))]
pub fn step_14(
    work: &mut Working,
    locks: &mut [u32],
    pages: &mut [u32],
) -> Result<StepAnswer, Refusal>
    requires { AtHand work.old locks.old pages.old }
    ensures { left result work.new locks.new pages.new ≡ OldPages.step14 (seen work.old locks.old pages.old) }
{
    let first = work.party.old;
    if !chains::names_overflow(work.root, first) {
        return Err(Refusal::Damage);
    }
    let n = chains::count_pages(work.root, &pages[..], first)?;
    old_given_back(work, n, locks, pages)
}
