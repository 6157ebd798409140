// A party's scratch page, read and written over the primary page of its chain (document 01, "The thirty steps").
// Main statements: scratch_of is scratch_of; primary_written is the model's primary_written (steps 11 and 18), whatever the lock words are.

#![tactic(auto)]

ghost use Rattle.std.specs.Prelude.{◌≡◌, List, ℕ, ◌<◌};
ghost use Rattle.model.specs.Pages.{page_of, scratch_page};
ghost use Rattle.model.specs.ScratchPages as ScratchPages;
ghost use Rattle.records.specs.Work.{seen, left};
ghost use Rattle.endings.specs.Scratch.{HasScratch};

use model::{Page, PageAddress, Refusal, StepAnswer};
use records::Working;

// The sixteen words of the party's scratch page.
pub fn scratch_of(work: &Working, pages: &[u32]) -> Page
    requires { HasScratch work.now.root work.now.number pages.now }
    ensures { result ≡ page_of pages.now (scratch_page work.now.root work.now.number) }
{
    pages::load(pages, endings::scratch_page(work.root, work.number))
}

// "11 write the primary page", "18 write the old chain's primary page": "The scratch page counts as followed where it is
// read". The party is then at step `next`.
#[tactic(auto, unfolding(model::specs::ScratchPages::primary_written, model::specs::ScratchPages::scratch_of))]
pub fn primary_written(
    work: &mut Working,
    pages: &mut [u32],
    next: u32,
) -> Result<StepAnswer, Refusal>
    requires { HasScratch work.old.root work.old.number pages.old × (work.old.party.chain < work.old.root.primaries) }
    ensures { (ls : List ℕ) → left result work.new ls pages.new ≡ ScratchPages.primary_written (seen work.old ls pages.old) next }
{
    let w = scratch_of(&*work, &pages[..]);
    if !chains::page_sound(work.root, w) {
        return Err(Refusal::Damage);
    }
    pages::store(pages, PageAddress(work.party.chain), w);
    work.party.step = next;
    Ok(StepAnswer::Moved)
}
