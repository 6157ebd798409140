// Step 10, for insert and delete (document 01, "The thirty steps"): a chain is looked through whole and changed beside
// the file.
// A chain of few pages goes by way of a small buffer, a longer one is written page by page as it is read: two ways to
// one definition, since there is no heap for a buffer that every chain fits.
// Main statements: keep, note and take_off write what a change leaves of the records; change and step_10 are the
// model's step10, for every word that the memory may hold.

#![tactic(auto)]

ghost use Rattle.std.specs.Prelude.{◌≡◌, List, ℕ, ◌-◌};
ghost use Rattle.model.specs.Records.{at_step, with_answer, with_old, with_owed, with_free_list};
ghost use Rattle.model.specs.Steps.Rebuild as Rebuild;
ghost use Rattle.records.specs.Work.{seen, left, AtHand};
ghost use Rattle.chain_change.specs.Changing.{after_change, CanChange};

use chain_change::{Changed, Rebuilt};
use model::{ChainAddress, Damaged, LINK_WORD, PageAddress, Party, Refusal, Root, StepAnswer};
use records::Working;

// "10 look through the whole chain in the file, then change it beside the file."
fn change(work: &Working, pages: &mut [u32]) -> Result<Changed, Damaged>
    requires { CanChange work.now pages.old }
    ensures { (ls : List ℕ) → after_change (seen work.now ls pages.old) pages.new result ≡ Rebuild.step10 (seen work.now ls pages.old) }
{
    let n = chain_keys::walk(work.root, ChainAddress(work.party.chain), &pages[..])?;
    if n <= chain_keys::FEW {
        few_pages::change_few(work, n, pages)
    } else {
        many_pages::change_many(work, pages)
    }
}

// An operation that changes nothing sets the answer alone.
fn keep(party: &mut Party, answer: u32)
    ensures { party.new ≡ at_step 12 (with_answer answer party.entry.now) }
{
    party.answer = answer;
    party.step = 12;
}

// The record after a change: "set answer, old link and owed".
fn note(party: &mut Party, m: Rebuilt, link: u32)
    ensures { party.new ≡ at_step 11 (with_owed m.owed (with_old link (with_answer m.answer party.entry.now))) }
{
    party.answer = m.answer;
    party.old = link;
    party.owed = m.owed;
    party.step = 11;
}

// The root with the pages that were taken off the free list.
fn take_off(root: &mut Root, m: Rebuilt)
    ensures { root.new ≡ with_free_list m.head (root.old.free - m.taken) root.old }
{
    root.head = m.head;
    root.free = root.free.saturating_sub(m.taken);
}

// Step 10: an operation that changes its chain, or not.
pub fn step_10(
    work: &mut Working,
    locks: &mut [u32],
    pages: &mut [u32],
) -> Result<StepAnswer, Refusal>
    requires { AtHand work.old locks.old pages.old }
    ensures { left result work.new locks.new pages.new ≡ Rebuild.step10 (seen work.old locks.old pages.old) }
{
    let link = pages::word(&pages[..], PageAddress(work.party.chain), LINK_WORD);
    match change(&*work, pages)? {
        Changed::Kept(answer) => keep(&mut work.party, answer),
        Changed::Written(m) => {
            take_off(&mut work.root, m);
            note(&mut work.party, m, link);
        }
    }
    Ok(StepAnswer::Moved)
}
