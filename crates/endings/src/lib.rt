// How an operation ends (document 01, "The thirty steps"): its answer, its restructuring, its record and scratch page zeroed.
// Main statements: done and finished are the model's, whatever the lock words are; answer_of, restructuring_of and
// scratch_page are the model's; clear zeroes both.

#![tactic(auto)]

ghost use Rattle.std.specs.Prelude.{◌≡◌, List, ℕ, ◌^◌, ◌<◌};
ghost use Rattle.model.specs.declared.Party.{Party};
ghost use Rattle.model.specs.Pages.{scratch_page, zero_page};
ghost use Rattle.model.specs.Answers.{answer_of, restructuring_of};
ghost use Rattle.model.specs.Endings as Endings;
ghost use Rattle.model.specs.Ready.{viewing};
ghost use Rattle.records.specs.Work.{seen, left};
ghost use Rattle.endings.specs.Scratch.{HasScratch, cleared};

use model::{
    ABSENT, DELETED, INSERTED, OperationAnswer, PAGE_WORDS, PRESENT, PageAddress, Party,
    Restructuring, Root, SPLIT_MADE, StepAnswer,
};
use records::Working;

// "answer so far (0 none, 1 inserted, 2 present, 3 deleted, 4 absent, 5 no page)".
// No From: a number that is no answer's is told as no page.
#[tactic(auto, unfolding(model::specs::Answers::answer_of))]
pub fn answer_of(n: u32) -> OperationAnswer
    ensures { result ≡ answer_of n }
{
    match n {
        INSERTED => OperationAnswer::Inserted,
        PRESENT => OperationAnswer::Present,
        DELETED => OperationAnswer::Deleted,
        ABSENT => OperationAnswer::Absent,
        _ => OperationAnswer::NoPage,
    }
}

// "Done at 12, 14 or 22 reports split where owed is 3, else none."
#[tactic(auto, unfolding(model::specs::Answers::restructuring_of))]
pub fn restructuring_of(owed: u32) -> Restructuring
    ensures { result ≡ restructuring_of owed }
{
    if owed == SPLIT_MADE {
        Restructuring::Split
    } else {
        Restructuring::None
    }
}

// "then one scratch page a party": that of party q.
pub fn scratch_page(root: Root, q: u32) -> PageAddress
    requires { scratch_page root q < 2 ^ 32 }
    ensures { result.0 ≡ scratch_page root q }
{
    PageAddress(root.primaries + root.overflow + q)
}

// "zeroes the party's record and scratch page".
pub fn clear(work: &mut Working, pages: &mut [u32])
    requires { HasScratch work.old.root work.old.number pages.old }
    ensures { (ls : List ℕ) → seen work.new ls pages.new ≡ cleared (seen work.old ls pages.old) }
{
    pages::store(pages, scratch_page(work.root, work.number), [0; PAGE_WORDS]);
    work.party = Party::default();
}

// "'Done' carries the answer ... and the restructuring ..., and zeroes the party's record and scratch page."
pub fn done(
    work: &mut Working,
    pages: &mut [u32],
    answer: OperationAnswer,
    made: Restructuring,
) -> StepAnswer
    requires { HasScratch work.old.root work.old.number pages.old }
    ensures { (p : Party) (ls : List ℕ) → left (Ok result) work.new ls pages.new ≡ Endings.done answer made (viewing work.old.root p work.old.number ls pages.old) }
{
    clear(work, pages);
    StepAnswer::Done(answer, made)
}

// Done with the answer and the restructuring of the party's record.
#[tactic(auto, unfolding(model::specs::Endings::finished))]
pub fn finished(work: &mut Working, pages: &mut [u32]) -> StepAnswer
    requires { HasScratch work.old.root work.old.number pages.old }
    ensures { (ls : List ℕ) → left (Ok result) work.new ls pages.new ≡ Endings.finished (seen work.old ls pages.old) }
{
    let answer = answer_of(work.party.answer);
    let made = restructuring_of(work.party.owed);
    done(work, pages, answer, made)
}
