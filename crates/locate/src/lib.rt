// Locating, the steps by which every operation begins (document 01, "The thirty steps"): steps 1 to 5, up to the chain's lock and the root's given up.
// Each step function equals the model's step of the same number, on all memory that passed the refusal table; locate is what step 3 works out.

#![tactic(auto)]

ghost use Rattle.std.specs.Prelude.{◌≡◌, List, ℕ, ◌≤◌};
ghost use Rattle.model.specs.Addresses.{address_level, address_of};
ghost use Rattle.model.specs.Steps.Locate as Locate;
ghost use Rattle.records.specs.Work.{seen, left, AtHand};
ghost use Rattle.lock_requests.specs.Locks.{CanLock};

use addresses::Located;
use lock_requests::{CHASE, Lock};
use model::{Mode, Refusal, Root, StepAnswer};
use records::Working;

// "1 request read on root."
pub fn step_01(work: &mut Working, locks: &mut [u32]) -> Result<StepAnswer, Refusal>
    requires { CanLock work.old locks.old }
    ensures { (ps : List ℕ) → left result work.new locks.new ps ≡ Locate.step01 (seen work.old locks.old ps) }
{
    Ok(lock_requests::request(work, locks, Lock::root(Mode::Read), 2))
}

// "2 read level."
pub fn step_02(
    work: &mut Working,
    locks: &mut [u32],
    pages: &mut [u32],
) -> Result<StepAnswer, Refusal>
    requires { AtHand work.old locks.old pages.old }
    ensures { left result work.new locks.new pages.new ≡ Locate.step02 (seen work.old locks.old pages.old) }
{
    work.party.lev = work.root.level;
    work.party.step = 3;
    Ok(StepAnswer::Moved)
}

// Step 3's lev and chain: h_lev(k), or h_(lev+1)(k) with lev raised where the former is below next.
fn locate(root: Root, lev: u32, key: u32) -> Located
    requires { (1 ≤ root.originals) × (root.originals ≤ 256) × (lev ≤ 9) }
    ensures { (result.lev ≡ address_level root.originals lev root.next key) × (result.chain.0 ≡ address_of root.originals lev root.next key) }
{
    let m = mixing::mixed(key);
    let low = addresses::hash(root.originals, lev, m);
    if low.0 < root.next {
        let raised = lev + 1;
        return Located {
            lev: raised,
            chain: addresses::hash(root.originals, raised, m),
        };
    }
    Located { lev, chain: low }
}

// "3 read next; fix lev and chain."
pub fn step_03(
    work: &mut Working,
    locks: &mut [u32],
    pages: &mut [u32],
) -> Result<StepAnswer, Refusal>
    requires { AtHand work.old locks.old pages.old }
    ensures { left result work.new locks.new pages.new ≡ Locate.step03 (seen work.old locks.old pages.old) }
{
    let at = locate(work.root, work.party.lev, work.party.key);
    if work.root.primaries <= at.chain.0 {
        return Err(Refusal::Damage);
    }
    work.party.lev = at.lev;
    work.party.chain = at.chain.0;
    work.party.step = 4;
    Ok(StepAnswer::Moved)
}

// "4 request the chain".
#[tactic(auto, unfolding(model::specs::Steps::Locate::step04))]
pub fn step_04(work: &mut Working, locks: &mut [u32]) -> Result<StepAnswer, Refusal>
    requires { CanLock work.old locks.old }
    ensures { (ps : List ℕ) → left result work.new locks.new ps ≡ Locate.step04 (seen work.old locks.old ps) }
{
    Ok(lock_requests::request_chain(work, locks, 5))
}

// "5 give up root."
pub fn step_05(work: &mut Working, locks: &mut [u32]) -> Result<StepAnswer, Refusal>
    requires { CanLock work.old locks.old }
    ensures { (ps : List ℕ) → left result work.new locks.new ps ≡ Locate.step05 (seen work.old locks.old ps) }
{
    lock_requests::release(work, locks, Lock::root(Mode::Read), CHASE)
}
