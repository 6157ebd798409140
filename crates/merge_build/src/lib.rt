// Step 26, inside a delete (document 01, "The thirty steps"; document 02, change 4): the records of target and partner
// are joined in scratch, if they fit a page.
// Main statement: step_26 is the model's step26, for every word that the memory may hold.

#![tactic(auto)]

ghost use Rattle.std.specs.Prelude.{◌≡◌};
ghost use Rattle.model.specs.Steps.MergeBuild as MergeBuild;
ghost use Rattle.records.specs.Work.{seen, left, AtHand};
ghost use Rattle.merge_build.specs.Combining.{CanCombine};

use chain_scan::Looked;
use model::{ChainAddress, Mode, PageAddress, Refusal, Restructuring, StepAnswer};
use records::Working;

// The two chains were looked through. "A merge now goes ahead only if the joined records fit the primary page"; a key
// in both is damage before that.
fn combine(
    work: &mut Working,
    t: Looked,
    u: Looked,
    locks: &mut [u32],
    pages: &mut [u32],
) -> Result<StepAnswer, Refusal>
    requires { CanCombine work.old t u locks.old pages.old }
    ensures { left result work.new locks.new pages.new ≡ MergeBuild.step26 (seen work.old locks.old pages.old) }
{
    let target = PageAddress(work.party.chain);
    let first = key_source::first_place(&pages[..], target, t.pages);
    let second = key_source::first_place(&pages[..], PageAddress(work.party.other), u.pages);
    if merge_join::shares_key(first, second, &pages[..]) {
        return Err(Refusal::Damage);
    }
    let n = t.count + u.count;
    if work.root.capacity < n {
        let claimed = last_locks::merge_locks(work.party, Mode::Exclusive);
        return last_locks::ended_with(work, locks, pages, &claimed, Restructuring::MergeSkipped);
    }
    let page = pages::load(&pages[..], target);
    let w = merge_join::joined_page(chains::level_of(page), n, first, second, &pages[..]);
    work.party.old = chains::link_of(page);
    pages::store(pages, endings::scratch_page(work.root, work.number), w);
    work.party.step = 27;
    Ok(StepAnswer::Moved)
}

// "26 join both key lists ..., and set the old link to the target's"; "n = N at 26" is damage.
pub fn step_26(
    work: &mut Working,
    locks: &mut [u32],
    pages: &mut [u32],
) -> Result<StepAnswer, Refusal>
    requires { AtHand work.old locks.old pages.old }
    ensures { left result work.new locks.new pages.new ≡ MergeBuild.step26 (seen work.old locks.old pages.old) }
{
    if addresses::merge_barred(work.root) {
        return Err(Refusal::Damage);
    }
    let target = ChainAddress(work.party.chain);
    let partner = ChainAddress(work.party.other);
    let t = chain_scan::look_through(work.root, target, 0, &pages[..])?;
    let u = chain_scan::look_through(work.root, partner, 0, &pages[..])?;
    combine(work, t, u, locks, pages)
}
