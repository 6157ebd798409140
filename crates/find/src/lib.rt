// Find, for find alone (document 01, "The thirty steps"): step 9. The scratch page holds the page looked at; a call looks at one page.
// Main statements: setting_at is a word of page_of; answered, looked_on and step_09 are the model's, for every word that the memory may hold.

#![tactic(auto)]

ghost use Rattle.std.specs.Prelude.{◌≡◌, List, ℕ, ◌+◌, ◌*◌, ◌≤◌, ◌<◌, length, get_or};
ghost use Rattle.model.specs.Sizes.{page_words, most_records, record_words};
ghost use Rattle.model.specs.Pages.{page_of};
ghost use Rattle.model.specs.Steps.Find as Find;
ghost use Rattle.records.specs.Work.{seen, left, AtHand};
ghost use Rattle.find.specs.Links.{LinksOn};

use lock_requests::Lock;
use model::{
    ChainAddress, FIRST_RECORD, OperationAnswer, PageAddress, RECORD_WORDS, Refusal, Restructuring,
    StepAnswer,
};
use records::Working;

// "give up the chain, done".
#[tactic(auto, unfolding(model::specs::Steps::Find::answered))]
fn answered(
    work: &mut Working,
    locks: &mut [u32],
    pages: &mut [u32],
    answer: OperationAnswer,
) -> Result<StepAnswer, Refusal>
    requires { AtHand work.old locks.old pages.old }
    ensures { left result work.new locks.new pages.new ≡ Find.answered (seen work.old locks.old pages.old) answer }
{
    let mode = lock_requests::mode_of(work.party);
    let lock = Lock::chain(ChainAddress(work.party.chain), mode);
    lock_requests::give_up(&*work, locks, &[lock])?;
    Ok(endings::done(work, pages, answer, Restructuring::None))
}

// "Else copy the linked page over it and stay at 9": `link` is the scratch page's.
#[tactic(auto, unfolding(model::specs::Steps::Find::looked_on))]
fn looked_on(work: &Working, pages: &mut [u32], link: u32) -> Result<StepAnswer, Refusal>
    requires { LinksOn work.now.root work.now.number pages.old link }
    ensures { (ls : List ℕ) → left result work.now ls pages.new ≡ Find.looked_on (seen work.now ls pages.old) }
{
    let w = pages::load(&pages[..], PageAddress(link - 1));
    if !chains::page_sound(work.root, w) {
        return Err(Refusal::Damage);
    }
    pages::store(pages, endings::scratch_page(work.root, work.number), w);
    Ok(StepAnswer::Moved)
}

// The setting of the record at this place on page `p`, read where it stands: a page taken by value would be kept whole for it.
fn setting_at(pages: &[u32], p: PageAddress, place: usize) -> u32
    requires { (p.0 * page_words + page_words ≤ length pages.now) × (place < most_records) }
    ensures { result ≡ get_or (page_of pages.now p.0) (3 + place * record_words + 1) 0 }
{
    pages::word(pages, p, FIRST_RECORD + place * RECORD_WORDS + 1)
}

// "9 key on the scratch page: give up the chain, done found. No link: the same, done absent."
// "Found answers the setting".
#[tactic(auto, unfolding(model::specs::Steps::Find::step09))]
pub fn step_09(
    work: &mut Working,
    locks: &mut [u32],
    pages: &mut [u32],
) -> Result<StepAnswer, Refusal>
    requires { AtHand work.old locks.old pages.old }
    ensures { left result work.new locks.new pages.new ≡ Find.step09 (seen work.old locks.old pages.old) }
{
    let scratch = endings::scratch_page(work.root, work.number);
    let s = pages::load(&pages[..], scratch);
    if !chains::page_sound(work.root, s) {
        return Err(Refusal::Damage);
    }
    if let Some(place) = chain_scan::place_of(s, work.party.key) {
        let setting = setting_at(&pages[..], scratch, place);
        return answered(work, locks, pages, OperationAnswer::Found(setting));
    }
    let link = chains::link_of(s);
    if link == 0 {
        return answered(work, locks, pages, OperationAnswer::Absent);
    }
    looked_on(&*work, pages, link)
}
