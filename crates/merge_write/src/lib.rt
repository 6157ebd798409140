// Merge, inside a delete (document 01, "The thirty steps"): what follows the joining of the records, steps 27 to 29.
// Main statements: each step_NN is the model's stepNN, for every word that the memory may hold.

#![tactic(auto)]

ghost use Rattle.std.specs.Prelude.{◌≡◌, true, List, ◌++◌, ℕ, ◌-◌, ◌≤◌};
ghost use Rattle.model.specs.Pages.{level_of, link_sound, with_local_level};
ghost use Rattle.model.specs.Chains.{list_from};
ghost use Rattle.model.specs.Steps.MergeWrite as MergeWrite;
ghost use Rattle.records.specs.Work.{seen, left, AtHand};
ghost use Rattle.chains.specs.Walks.{counted};
ghost use Rattle.free_list.specs.Giving.{listed};
ghost use Rattle.merge_write.specs.Clearing.{CanClear, roomy_cleared, both_cleared};

use lock_requests::ROOT_WORD;
use model::{LEVEL_WORD, Mode, PAGE_WORDS, Page, PageAddress, Refusal, StepAnswer};
use records::Working;

// "27 if next was 0, lower level; next becomes the target's number; exclusive on root becomes selective." "n = N at 26 or 27" is damage, and so is
// "a lock ... turned selective that is not held".
#[tactic(auto, unfolding(model::specs::Steps::MergeWrite::step27, model::specs::Steps::MergeWrite::root_moved_back, model::specs::LockRequests::is_held))]
pub fn step_27(
    work: &mut Working,
    locks: &mut [u32],
    pages: &mut [u32],
) -> Result<StepAnswer, Refusal>
    requires { AtHand work.old locks.old pages.old }
    ensures { left result work.new locks.new pages.new ≡ MergeWrite.step27 (seen work.old locks.old pages.old) }
{
    if addresses::merge_barred(work.root) {
        return Err(Refusal::Damage);
    }
    let word = locks[ROOT_WORD as usize];
    if !lock_words::holds(word, work.number, Mode::Exclusive) {
        return Err(Refusal::Damage);
    }
    locks[ROOT_WORD as usize] = lock_words::turned_selective(word, work.number);
    work.root.level = addresses::merge_level(work.root);
    work.root.next = work.party.chain;
    work.party.step = 28;
    Ok(StepAnswer::Moved)
}

// The page with its "local level lowered by one".
fn lowered(w: Page) -> Page
    requires { 1 ≤ level_of w }
    ensures { result ≡ with_local_level (level_of w - 1) w }
{
    let mut page = w;
    page[LEVEL_WORD] = chains::level_of(w) - 1;
    page
}

// "28 write the target's primary page from scratch, local level lowered by one." "local level 0 at 28" is damage.
#[tactic(auto, unfolding(model::specs::Steps::MergeWrite::step28))]
pub fn step_28(
    work: &mut Working,
    locks: &mut [u32],
    pages: &mut [u32],
) -> Result<StepAnswer, Refusal>
    requires { AtHand work.old locks.old pages.old }
    ensures { left result work.new locks.new pages.new ≡ MergeWrite.step28 (seen work.old locks.old pages.old) }
{
    let scratch = scratch_pages::scratch_of(&*work, &pages[..]);
    if !chains::page_sound(work.root, scratch) {
        return Err(Refusal::Damage);
    }
    if chains::level_of(scratch) == 0 {
        return Err(Refusal::Damage);
    }
    pages::store(pages, PageAddress(work.party.chain), lowered(scratch));
    work.party.step = 29;
    Ok(StepAnswer::Moved)
}

// The n pages that the old link leads to and the m pages that link `second` leads to are given back, and the partner's primary page is zeroed.
// "a free count that giving back would take above V" is damage.
fn lists_given_back(
    work: &mut Working,
    n: u32,
    second: u32,
    m: u32,
    pages: &mut [u32],
) -> Result<StepAnswer, Refusal>
    requires { (CanClear work.old.root work.old.party pages.old) × (link_sound work.old.root second ≡ true) × (counted (list_from work.old.root pages.old work.old.party.old) ≡ Ok n) × (counted (list_from work.old.root pages.old second) ≡ Ok m) }
    ensures { (ls : List ℕ) → left result work.new ls pages.new ≡ roomy_cleared (seen work.old ls pages.old) (listed (list_from work.old.root pages.old work.old.party.old) ++ listed (list_from work.old.root pages.old second)) }
{
    if work.root.overflow < work.root.free + n + m {
        return Err(Refusal::Damage);
    }
    work.root = merge_lists::give_back_both(work.root, work.party.old, n, second, m, pages);
    pages::store(pages, PageAddress(work.party.other), [0; PAGE_WORDS]);
    work.party.step = 30;
    Ok(StepAnswer::Moved)
}

// Both lists are walked to their ends before a word is written.
fn lists_walked(work: &mut Working, second: u32, pages: &mut [u32]) -> Result<StepAnswer, Refusal>
    requires { (CanClear work.old.root work.old.party pages.old) × (link_sound work.old.root second ≡ true) }
    ensures { (ls : List ℕ) → left result work.new ls pages.new ≡ both_cleared (seen work.old ls pages.old) second }
{
    let n = chains::count_pages(work.root, &pages[..], work.party.old)?;
    let m = chains::count_pages(work.root, &pages[..], second)?;
    lists_given_back(work, n, second, m, pages)
}

// "29 give back the target's old pages, then the partner's; zero the partner's primary page."
#[tactic(auto, unfolding(model::specs::Steps::MergeWrite::step29, model::specs::Steps::MergeWrite::merged_away))]
pub fn step_29(
    work: &mut Working,
    locks: &mut [u32],
    pages: &mut [u32],
) -> Result<StepAnswer, Refusal>
    requires { AtHand work.old locks.old pages.old }
    ensures { left result work.new locks.new pages.new ≡ MergeWrite.step29 (seen work.old locks.old pages.old) }
{
    let partner = pages::load(&pages[..], PageAddress(work.party.other));
    if !chains::link_sound(work.root, work.party.old) {
        return Err(Refusal::Damage);
    }
    if !chains::page_sound(work.root, partner) {
        return Err(Refusal::Damage);
    }
    lists_walked(work, chains::link_of(partner), pages)
}
