// Withdraw (document 02, change 2: "Withdraw takes back a begin"), for a party whose decisive step is not yet taken:
// its locks are given up, the pages that it has built go back in reverse order, its record and scratch page are
// zeroed. Every test is made before a word is written.
// Main statements: withdrawn is the model's withdrawn, for every word that the memory may hold; give_up_claimed gives
// up the locks that the step number claims, all of them or none.

#![tactic(auto)]

ghost use Rattle.std.specs.Prelude.{◌≡◌, true, List, ℕ, ◌<◌, Ok};
ghost use Rattle.model.specs.declared.Root.{Root};
ghost use Rattle.model.specs.Pages.{link_sound};
ghost use Rattle.model.specs.Chains.{list_from};
ghost use Rattle.model.specs.LockRequests.{held_all};
ghost use Rattle.model.specs.Claims.{claims};
ghost use Rattle.model.specs.Withdraw as Withdraw;
ghost use Rattle.records.specs.Work.{seen, AtHand};
ghost use Rattle.lock_requests.specs.Locks.{held_or_damaged, after_giving_up, CanLock};
ghost use Rattle.chains.specs.Walks.{counted};
ghost use Rattle.free_list.specs.Giving.{listed};
ghost use Rattle.withdraw.specs.TakingBack.{withdrawn_with};

use lock_requests::Lock;
use model::{ChainAddress, Damaged, Mode, Refusal};
use records::Working;

// "locks are given up": those that the step number claims. The root is held from 2 on, where 1 was granted, to 5,
// which gives it up; a chain once it is granted, at 4 or at 7; the other chain is the one to be left, at 7 and at 8.
fn give_up_claimed(work: &Working, locks: &mut [u32]) -> Result<(), Damaged>
    requires { CanLock work.now locks.old × (work.now.party.step < 12) }
    ensures { (r : Root) (ps : List ℕ) → (result ≡ held_or_damaged (held_all (seen work.now locks.old ps) (claims r work.now.party))) × (seen work.now locks.new ps ≡ after_giving_up (claims r work.now.party) (seen work.now locks.old ps)) }
{
    let mode = lock_requests::mode_of(work.party);
    let root = Lock::root(Mode::Read);
    let chain = Lock::chain(ChainAddress(work.party.chain), mode);
    let other = Lock::chain(ChainAddress(work.party.other), mode);
    match work.party.step {
        0..=1 => Ok(()),
        2..=4 => lock_requests::give_up(work, locks, &[root]),
        5 => lock_requests::give_up(work, locks, &[root, chain]),
        7 => lock_requests::give_up(work, locks, &[other]),
        8 => lock_requests::give_up(work, locks, &[other, chain]),
        _ => lock_requests::give_up(work, locks, &[chain]),
    }
}

// The step at which the scratch page leads to pages that are built and not yet written into the file.
const BUILT: u32 = 11;

// The n pages that link `first` leads to are those built. "a free count that giving back would take above V" is
// damage.
fn taken_back(
    work: &mut Working,
    locks: &mut [u32],
    pages: &mut [u32],
    first: u32,
    n: u32,
) -> Result<(), Refusal>
    requires { AtHand work.old locks.old pages.old × (work.old.party.step < 12) × (link_sound work.old.root first ≡ true) × (counted (list_from work.old.root pages.old first) ≡ Ok n) }
    ensures { Withdraw.withdrawal result (seen work.new locks.new pages.new) ≡ withdrawn_with (seen work.old locks.old pages.old) (listed (list_from work.old.root pages.old first)) }
{
    if work.root.overflow < work.root.free + n {
        return Err(Refusal::Damage);
    }
    give_up_claimed(&*work, locks)?;
    work.root = free_list::take_back(work.root, first, n, pages);
    endings::clear(work, pages);
    Ok(())
}

// "pages built and not yet written into the file (at step 11, those scratch leads to) go back": the scratch page and
// the list it leads to are tested as a step tests them.
pub fn withdrawn(work: &mut Working, locks: &mut [u32], pages: &mut [u32]) -> Result<(), Refusal>
    requires { AtHand work.old locks.old pages.old × (work.old.party.step < 12) }
    ensures { Withdraw.withdrawal result (seen work.new locks.new pages.new) ≡ Withdraw.withdrawn (seen work.old locks.old pages.old) }
{
    if work.party.step != BUILT {
        return taken_back(work, locks, pages, 0, 0);
    }
    let w = scratch_pages::scratch_of(&*work, &pages[..]);
    if !chains::page_sound(work.root, w) {
        return Err(Refusal::Damage);
    }
    let first = chains::link_of(w);
    let n = chains::count_pages(work.root, &pages[..], first)?;
    taken_back(work, locks, pages, first, n)
}
