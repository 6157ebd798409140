// Bucket chains looked through whole (document 01, steps 10, 17 and 26): the pages are walked first, and then the
// records are gathered into a lent buffer of words.
// Main statements: walk is the walk of a chain's overflow pages; gather is chain_of, for every memory in which the
// pages were walked.

#![tactic(auto)]

ghost use Rattle.std.specs.Prelude.{◌≡◌, ◌++◌, ◌+◌, ◌*◌, ◌≤◌, ◌<◌, length, take};
ghost use Rattle.model.specs.Sizes.{most_records, record_words};
ghost use Rattle.model.specs.Pages.{count_of, link_of, records_in, entries_of};
ghost use Rattle.model.specs.Chains.{chain_of};
ghost use Rattle.chains.specs.Walks.{counted};
ghost use Rattle.chain_keys.specs.Gathering.{overflow_of, CanWalk, CanGather, Followed, entries_from, gathered, in_front, entries_in};

use model::{
    ChainAddress, Damaged, FIRST_RECORD, MOST_RECORDS, Page, PageAddress, RECORD_WORDS, Root,
};

// The most overflow pages of a chain that steps 10 and 17 gather in a small buffer: with the primary page's, 48
// records, 96 words.
pub const FEW: u32 = 7;

// The record words of a page.
const ALL_RECORDS: usize = MOST_RECORDS as usize * RECORD_WORDS;

// A chain whose records stand at the front of a buffer: its local level, its link, and how many records it has.
#[derive(Clone, Copy)]
pub struct Front {
    pub level: u32,
    pub link: u32,
    pub count: usize,
}

// How many overflow pages the chain has: every page is tested, the primary page first.
pub fn walk(root: Root, chain: ChainAddress, pages: &[u32]) -> Result<u32, Damaged>
    requires { CanWalk root pages.now chain.0 }
    ensures { result ≡ counted (overflow_of root pages.now chain.0) }
{
    let w = pages::load(pages, PageAddress(chain.0));
    if !chains::page_sound(root, w) {
        return Err(Damaged);
    }
    chains::count_pages(root, pages, chains::link_of(w))
}

// A page's records go into the buffer, from record `at` on: where the next would go. All its record words are copied,
// and those past its records count for nothing.
fn copy_records(w: Page, words: &mut [u32], at: usize) -> usize
    requires { (count_of w ≤ most_records) × ((at + most_records) * record_words ≤ length words.old) }
    ensures { (result ≡ at + count_of w) × (take result (records_in words.new) ≡ take at (records_in words.old) ++ entries_of w) }
{
    let first = at * RECORD_WORDS;
    words[first..first + ALL_RECORDS].copy_from_slice(&w[FIRST_RECORD..FIRST_RECORD + ALL_RECORDS]);
    at + chains::count_of(w) as usize
}

// The records on the page `w` and on the n pages that its link leads to, one page after the other, at the front of the
// buffer: how many there are.
fn gather_records(w: Page, n: u32, pages: &[u32], words: &mut [u32]) -> usize
    requires { (count_of w ≤ most_records) × Followed pages.now n (link_of w) × (most_records * record_words * (n + 1) ≤ length words.old) }
    ensures { (result * record_words ≤ length words.old) × (take result (records_in words.new) ≡ entries_of w ++ entries_from pages.now n (link_of w)) }
{
    let mut at = copy_records(w, words, 0);
    let mut l = chains::link_of(w);
    for _ in 0..n {
        let page = pages::load(pages, PageAddress(l - 1));
        at = copy_records(page, words, at);
        l = chains::link_of(page);
    }
    at
}

// The chain whose n overflow pages were walked, with its records at the front of the buffer; "keys that do not
// strictly ascend" are damage.
pub fn gather(
    root: Root,
    chain: ChainAddress,
    n: u32,
    pages: &[u32],
    words: &mut [u32],
) -> Result<Front, Damaged>
    requires { CanGather root pages.now chain.0 n (length words.old) }
    ensures { (result ≡ gathered (chain_of root pages.now chain.0)) × (in_front result words.new ≡ entries_in (chain_of root pages.now chain.0)) }
{
    let w = pages::load(pages, PageAddress(chain.0));
    let count = gather_records(w, n, pages, words);
    if !entries::ascends(&words[..count * RECORD_WORDS]) {
        return Err(Damaged);
    }
    Ok(Front {
        level: chains::level_of(w),
        link: chains::link_of(w),
        count,
    })
}
