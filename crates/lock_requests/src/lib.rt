// Lock requests and give-ups, as steps of several groups make them (document 01, "The thirty steps"): the lock of the
// root or of a chain and the mode of an operation, the one path of all requesting steps, and that of all steps that
// give locks up.
// Main statements: chain_word and mode_of are the model's; request_for, request and request_chain are the model's
// request, whatever the lock and the next step's number; give_up tests a list of locks on the words as found and gives
// up all of them, or none; release is the model's release of one lock.

#![tactic(auto)]

ghost use Rattle.std.specs.Prelude.{◌≡◌, List, [], ◌∷◌, ℕ, ◌<◌, length};
ghost use Rattle.model.specs.Records.{at_step};
ghost use Rattle.model.specs.LockWords as LockWords;
ghost use Rattle.model.specs.LockRequests as LockRequests;
ghost use Rattle.records.specs.Work.{seen, left};
ghost use Rattle.lock_requests.specs.Locks.{root_lock, chain_lock, claim_of, claims_of, AllThere, held_or_damaged, after_giving_up, CanLock};

use model::{ChainAddress, Damaged, FIND, Mode, Party, Refusal, StepAnswer};
use records::Working;

// The root's lock word: "word 0 for the root, word c+1 for chain c".
pub const ROOT_WORD: u32 = 0;

// The step that copies the primary page and chases: after 5, and "back to 6" after 8.
pub const CHASE: u32 = 6;

// A lock that is requested, held or given up: its word, and the mode.
#[derive(Clone, Copy)]
pub struct Lock {
    pub word: u32,
    pub mode: Mode,
}

impl Lock {
    // The root's lock.
    pub fn root(mode: Mode) -> Lock
        ensures { result ≡ root_lock mode }
    {
        Lock {
            word: ROOT_WORD,
            mode,
        }
    }

    // A chain's lock.
    pub fn chain(chain: ChainAddress, mode: Mode) -> Lock
        requires { chain.0 < 256 }
        ensures { result ≡ chain_lock chain.0 mode }
    {
        Lock {
            word: chain_word(chain),
            mode,
        }
    }
}

// The lock word of chain c.
pub fn chain_word(c: ChainAddress) -> u32
    requires { c.0 < 256 }
    ensures { result ≡ LockWords.chain_word c.0 }
{
    c.0 + 1
}

// The mode in which an operation locks its chain: "read for find, selective otherwise".
#[tactic(auto, unfolding(model::specs::LockRequests::mode_of))]
pub fn mode_of(party: Party) -> Mode
    ensures { result ≡ LockRequests.mode_of party }
{
    if party.operation == FIND {
        Mode::Read
    } else {
        Mode::Selective
    }
}

// A lock is requested. Granted, the party's record becomes `granted`; else it "answers waiting (no word changes)".
#[tactic(auto, unfolding(model::specs::LockRequests::request, model::specs::LockRequests::is_granted, model::specs::LockRequests::with_hold))]
pub fn request_for(work: &mut Working, locks: &mut [u32], lock: Lock, granted: Party) -> StepAnswer
    requires { (lock.word < length locks.old) × (work.old.number < 16) }
    ensures { (ps : List ℕ) → left (Ok result) work.new locks.new ps ≡ LockRequests.request (seen work.old locks.old ps) (claim_of lock) granted }
{
    if lock_words::request(locks, lock.word as usize, work.number, lock.mode) {
        work.party = granted;
        StepAnswer::Moved
    } else {
        StepAnswer::Waiting
    }
}

// A lock is requested, and the grant leads to step k.
pub fn request(work: &mut Working, locks: &mut [u32], lock: Lock, k: u32) -> StepAnswer
    requires { (lock.word < length locks.old) × (work.old.number < 16) }
    ensures { (ps : List ℕ) → left (Ok result) work.new locks.new ps ≡ LockRequests.request (seen work.old locks.old ps) (claim_of lock) (at_step k work.old.party) }
{
    let granted = Party {
        step: k,
        ..work.party
    };
    request_for(work, locks, lock, granted)
}

// The party's chain is requested, "read for find, selective otherwise", and the grant leads to step k.
pub fn request_chain(work: &mut Working, locks: &mut [u32], k: u32) -> StepAnswer
    requires { CanLock work.old locks.old }
    ensures { (ps : List ℕ) → left (Ok result) work.new locks.new ps ≡ LockRequests.request (seen work.old locks.old ps) (LockRequests.chain_lock work.old.party) (at_step k work.old.party) }
{
    let mode = mode_of(work.party);
    let lock = Lock::chain(ChainAddress(work.party.chain), mode);
    request(work, locks, lock, k)
}

// Whether the party holds all of these locks.
fn all_held(work: &Working, locks: &[u32], claimed: &[Lock]) -> bool
    requires { AllThere claimed.now (length locks.now) × (work.now.number < 16) }
    ensures { (ps : List ℕ) → result ≡ LockRequests.held_all (seen work.now locks.now ps) (claims_of claimed.now) }
{
    for lock in claimed {
        if !lock_words::holds(locks[lock.word as usize], work.number, lock.mode) {
            return false;
        }
    }
    true
}

// The party gives up all of these locks: "a lock given up ... that is not held" is damage, and then none is.
pub fn give_up(work: &Working, locks: &mut [u32], claimed: &[Lock]) -> Result<(), Damaged>
    requires { AllThere claimed.now (length locks.old) × (work.now.number < 16) }
    ensures held { (ps : List ℕ) → result ≡ held_or_damaged (LockRequests.held_all (seen work.now locks.old ps) (claims_of claimed.now)) }
    ensures words { (ps : List ℕ) → seen work.now locks.new ps ≡ after_giving_up (claims_of claimed.now) (seen work.now locks.old ps) }
{
    if !all_held(work, &locks[..], claimed) {
        return Err(Damaged);
    }
    for lock in claimed {
        lock_words::release(locks, lock.word as usize, work.number, lock.mode);
    }
    Ok(())
}

// One lock is given up, and the party is at step k.
pub fn release(
    work: &mut Working,
    locks: &mut [u32],
    lock: Lock,
    k: u32,
) -> Result<StepAnswer, Refusal>
    requires { (lock.word < length locks.old) × (work.old.number < 16) }
    ensures { (ps : List ℕ) → left result work.new locks.new ps ≡ LockRequests.release (seen work.old locks.old ps) (claim_of lock ∷ []) (at_step k work.old.party) }
{
    give_up(&*work, locks, &[lock])?;
    work.party.step = k;
    Ok(StepAnswer::Moved)
}
