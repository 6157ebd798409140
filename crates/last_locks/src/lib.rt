// How an operation ends with all the locks that it still holds given up (document 01, "The thirty steps": 16, 17, 24,
// 26 and 30).
// Main statements: split_locks and merge_locks are the locks of a split and of a merge; ended_with is the model's
// ended_with, for any list of locks.

#![tactic(auto)]

ghost use Rattle.std.specs.Prelude.{◌≡◌, [], ◌∷◌, ℕ, ◌+◌, ◌<◌, length};
ghost use Rattle.records.specs.Work.{seen, left, AtHand};
ghost use Rattle.model.specs.LockWords.{claim, root_word};
ghost use Rattle.model.specs.LockRequests.{chain_selective, root_selective};
ghost use Rattle.model.specs.Endings as Endings;
ghost use Rattle.model.specs.Steps.MergeLocks as MergeLocks;
ghost use Rattle.lock_requests.specs.Locks.{claims_of, AllThere};

use lock_requests::Lock;
use model::{ChainAddress, Mode, Party, Refusal, Restructuring, StepAnswer};
use records::Working;

// The locks of a split: root and chain, selective.
pub fn split_locks(party: Party) -> [Lock; 2]
    requires { party.chain < 256 }
    ensures claims { claims_of result ≡ root_selective ∷ (chain_selective party ∷ []) }
    ensures words { (n : ℕ) → party.chain + 1 < n → AllThere result n }
{
    let chain = ChainAddress(party.chain);
    [
        Lock::root(Mode::Selective),
        Lock::chain(chain, Mode::Selective),
    ]
}

// The locks of a merge: root in this mode, chain and other chain exclusive.
#[tactic(auto, unfolding(model::specs::Steps::MergeLocks::merge_locks))]
pub fn merge_locks(party: Party, mode: Mode) -> [Lock; 3]
    requires { (party.chain < 256) × (party.other < 256) }
    ensures claims { claims_of result ≡ MergeLocks.merge_locks (claim root_word mode) party }
    ensures words { (n : ℕ) → party.chain + 1 < n → party.other + 1 < n → AllThere result n }
{
    let target = ChainAddress(party.chain);
    let partner = ChainAddress(party.other);
    [
        Lock::root(mode),
        Lock::chain(target, Mode::Exclusive),
        Lock::chain(partner, Mode::Exclusive),
    ]
}

// These locks are given up, and the operation is done with this restructuring. "a lock given up ... that is not held"
// is damage.
#[tactic(auto, unfolding(model::specs::Endings::ended_with))]
pub fn ended_with(
    work: &mut Working,
    locks: &mut [u32],
    pages: &mut [u32],
    claimed: &[Lock],
    made: Restructuring,
) -> Result<StepAnswer, Refusal>
    requires { AtHand work.old locks.old pages.old × AllThere claimed.now (length locks.old) }
    ensures { left result work.new locks.new pages.new ≡ Endings.ended_with (seen work.old locks.old pages.old) (claims_of claimed.now) made }
{
    lock_requests::give_up(&*work, locks, claimed)?;
    let answer = endings::answer_of(work.party.answer);
    Ok(endings::done(work, pages, answer, made))
}
