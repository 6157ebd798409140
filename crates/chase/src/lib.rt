// Chasing a key from chain to chain (document 01, "The thirty steps"): steps 6 to 8, which every operation has after it locked its first chain.
// Each step function equals the model's step of the same number, on all memory that passed the refusal table; chase and after_chase are what step 6 works out.

#![tactic(auto)]

ghost use Rattle.std.specs.Prelude.{◌≡◌, List, ℕ, ◌-◌, ◌≤◌};
ghost use Rattle.model.specs.Mixing.{mixed};
ghost use Rattle.model.specs.Steps.Chase as Chase;
ghost use Rattle.records.specs.Work.{seen, left, AtHand};
ghost use Rattle.lock_requests.specs.Locks.{CanLock};
ghost use Rattle.chase.specs.Chased.{ended_at, after_chase};

use addresses::Located;
use lock_requests::{CHASE, Lock};
use model::{ChainAddress, FIND, PageAddress, Party, Refusal, StepAnswer};
use records::Working;

// Where step 6 leads: "go to 7 as soon as h_lev(k) is another chain; else 9 for find, 10 otherwise".
const FOLLOW: u32 = 7;

const LOOK: u32 = 9;

const CHANGE: u32 = 10;

// "while lev differs from its local level, raise lev by one and go to 7 as soon as h_lev(k) is another chain": n is N, `local` the local level.
// The key is mixed only where lev is to be raised.
fn chase(n: u32, key: u32, chain: ChainAddress, lev: u32, local: u32) -> Located
    requires { (1 ≤ n) × (n ≤ 256) × (local ≤ 9) }
    ensures { ended_at result ≡ Chase.chase n (mixed key) chain.0 (local - lev) lev }
{
    if local <= lev {
        return Located { lev, chain };
    }
    let m = mixing::mixed(key);
    for below in lev..local {
        let raised = below + 1;
        let on = addresses::hash(n, raised, m);
        if on != chain {
            return Located {
                lev: raised,
                chain: on,
            };
        }
    }
    Located { lev: local, chain }
}

// The record after a chase: on to another chain, the former kept as other chain; or arrived.
#[tactic(auto, unfolding(model::specs::Steps::Chase::arrived, model::specs::Steps::Chase::chasing))]
fn after_chase(party: Party, t: Located) -> Party
    ensures { result ≡ after_chase (ended_at t) party }
{
    let chased = Party {
        lev: t.lev,
        ..party
    };
    if t.chain.0 != party.chain {
        return Party {
            step: FOLLOW,
            chain: t.chain.0,
            other: party.chain,
            ..chased
        };
    }
    let step = if party.operation == FIND {
        LOOK
    } else {
        CHANGE
    };
    Party { step, ..chased }
}

// "6 copy the primary page to the scratch page", and chase. The tests come first: "local level above 9 or below lev at step 6" is damage.
#[tactic(auto, using(model::proofs::Laws::Tests::sound_page_levels), unfolding(model::specs::Steps::Chase::step06, model::specs::Steps::Chase::chase_of))]
pub fn step_06(
    work: &mut Working,
    locks: &mut [u32],
    pages: &mut [u32],
) -> Result<StepAnswer, Refusal>
    requires { AtHand work.old locks.old pages.old }
    ensures { left result work.new locks.new pages.new ≡ Chase.step06 (seen work.old locks.old pages.old) }
{
    let former = ChainAddress(work.party.chain);
    let w = pages::load(&pages[..], PageAddress(former.0));
    if !chains::page_sound(work.root, w) {
        return Err(Refusal::Damage);
    }
    let local = chains::level_of(w);
    if local < work.party.lev {
        return Err(Refusal::Damage);
    }
    let t = chase(
        work.root.originals,
        work.party.key,
        former,
        work.party.lev,
        local,
    );
    if work.root.primaries <= t.chain.0 {
        return Err(Refusal::Damage);
    }
    pages::store(pages, endings::scratch_page(work.root, work.number), w);
    work.party = after_chase(work.party, t);
    Ok(StepAnswer::Moved)
}

// "7 request that chain."
#[tactic(auto, unfolding(model::specs::Steps::Chase::step07))]
pub fn step_07(work: &mut Working, locks: &mut [u32]) -> Result<StepAnswer, Refusal>
    requires { CanLock work.old locks.old }
    ensures { (ps : List ℕ) → left result work.new locks.new ps ≡ Chase.step07 (seen work.old locks.old ps) }
{
    Ok(lock_requests::request_chain(work, locks, 8))
}

// "8 give up the previous one, back to 6."
#[tactic(auto, unfolding(model::specs::Steps::Chase::step08))]
pub fn step_08(work: &mut Working, locks: &mut [u32]) -> Result<StepAnswer, Refusal>
    requires { CanLock work.old locks.old }
    ensures { (ps : List ℕ) → left result work.new locks.new ps ≡ Chase.step08 (seen work.old locks.old ps) }
{
    let mode = lock_requests::mode_of(work.party);
    let lock = Lock::chain(ChainAddress(work.party.other), mode);
    lock_requests::release(work, locks, lock, CHASE)
}
