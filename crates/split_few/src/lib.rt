// Step 17 on a chain of few pages (document 01, "The thirty steps"): its records are gathered in a small buffer,
// parted into two there, and both halves are written to new pages. What became of a chain is said for both ways of
// step 17.
// Main statements: part leaves those that stay and those that go at the front of two buffers; divide_few is the
// model's step17, for every chain of at most chain_keys::FEW overflow pages; all is read before a word is written.
// Records are counted beside the buffers: filling::write_chain needs room for six more than there are.

#![tactic(auto)]

ghost use Rattle.std.specs.Prelude.{◌≡◌, List, ℕ, ◌-◌, ◌≤◌, length, take};
ghost use Rattle.model.specs.Entries as Entries;
ghost use Rattle.model.specs.Pages.{records_in};
ghost use Rattle.model.specs.Chains.{Chain, chain_of, sound};
ghost use Rattle.model.specs.Steps.SplitBuild as SplitBuild;
ghost use Rattle.records.specs.Work.{seen};
ghost use Rattle.split_few.specs.Splitting.{halved, after_dividing, CanDivideFew, CanPart, CanWriteHalves};

use key_source::Halving;
use model::{ChainAddress, Damaged, PageAddress};
use records::Working;

// Both halves were written: the free list's head then, and how many pages are in it.
#[derive(Clone, Copy)]
pub struct Halved {
    pub head: u32,
    pub free: u32,
}

// The `count` records at the front of `words` parted: those that stay move up to its front, the others go to the front
// of `gone`. How many stay. Each record is put down in both, and where it does not belong the next takes its place.
fn part(h: Halving, count: usize, words: &mut [u32], gone: &mut [u32]) -> usize
    requires { CanPart h count words.old gone.old }
    ensures { (result ≤ count) × (take result (records_in words.new) ≡ Entries.staying h.originals h.level h.chain.0 (take count (records_in words.old))) × (take (count - result) (records_in gone.new) ≡ Entries.going h.originals h.level h.chain.0 (take count (records_in words.old))) }
{
    let mut staying = 0;
    for i in 0..count {
        let e = entries::record_at(&words[..], i);
        entries::set_record(words, staying, e);
        entries::set_record(gone, i - staying, e);
        staying += key_source::stays(h, e.key) as usize;
    }
    staying
}

// Both halves in new pages, those that stay at the front of `words`, those that go at the front of `gone`: "pages for
// the staying half first". None where too few pages are free.
fn write_halves(
    work: &Working,
    staying: usize,
    words: &[u32],
    going: usize,
    gone: &[u32],
    pages: &mut [u32],
) -> Result<Option<Halved>, Damaged>
    requires { CanWriteHalves work.now staying going words.now gone.now pages.old }
    ensures { (ls : List ℕ) (c : Chain) → chain_of work.now.root pages.old work.now.party.chain ≡ sound c → take staying (records_in words.now) ≡ (halved work.now.root work.now.party.chain c.entries).stay → take going (records_in gone.now) ≡ (halved work.now.root work.now.party.chain c.entries).go → after_dividing (seen work.now ls pages.old) pages.new result ≡ SplitBuild.step17 (seen work.now ls pages.old) }
{
    let root = work.root;
    let first = filling::pages_for(root.capacity, staying);
    let k = first + filling::pages_for(root.capacity, going);
    if (root.free as usize) < k {
        return Ok(None);
    }
    let mut taken = [0u32; 8];
    let head = free_list::take_pages(root, k, &pages[..], &mut taken)?;
    let b = root.capacity;
    let level = root.level + 1;
    let other = PageAddress(work.party.other);
    let scratch = endings::scratch_page(root, work.number);
    filling::write_chain(b, other, level, gone, going, &taken[first..k], pages);
    filling::write_chain(b, scratch, level, words, staying, &taken[..first], pages);
    Ok(Some(Halved {
        head,
        free: root.free - k as u32,
    }))
}

// Step 17 on a chain of which n overflow pages, few, were walked.
// Not put into its callers, so that only step 17 takes the stack of its buffers.
#[inline(never)]
pub fn divide_few(work: &Working, n: u32, pages: &mut [u32]) -> Result<Option<Halved>, Damaged>
    requires { CanDivideFew work.now n pages.old }
    ensures { (ls : List ℕ) → after_dividing (seen work.now ls pages.old) pages.new result ≡ SplitBuild.step17 (seen work.now ls pages.old) }
{
    let chain = ChainAddress(work.party.chain);
    let mut words = [0u32; 108];
    let mut gone = [0u32; 108];
    let g = chain_keys::gather(work.root, chain, n, &pages[..], &mut words)?;
    let h = Halving {
        originals: work.root.originals,
        level: work.root.level + 1,
        chain,
    };
    let staying = part(h, g.count, &mut words, &mut gone);
    write_halves(work, staying, &words, g.count - staying, &gone, pages)
}
