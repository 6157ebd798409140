// Take-up over lent words (document 02, change 6): the conditions over the root record, the lock words and the page
// words. No word is written.
// A chain is walked first, then its pages are looked through once; so is the free list. The pages counted are V: that
// none is counted twice follows from the other conditions.
// Main statement: words_saved is the model's is_saved of a file whose party records are zero.

#![tactic(auto)]

ghost use Rattle.std.specs.Prelude.{◌≡◌, true, ◌+◌, ◌-◌, ◌*◌, ◌≤◌, ◌<◌, length, drop};
ghost use Rattle.model.specs.Sizes.{page_words, most_records, within_limits, lock_words, all_page_words};
ghost use Rattle.model.specs.Addresses.{count_of_chains};
ghost use Rattle.model.specs.Pages.{page_of, count_of, link_of, entries_of, free_page};
ghost use Rattle.model.specs.FreeList.{pages_taken};
ghost use Rattle.model.specs.WaitingRow.{all_zero};
ghost use Rattle.model.specs.TakeUp.{same_words, zero_pages, level_at, all_free, free_if_sound, is_saved};
ghost use Rattle.addresses.specs.Fits.{RootFits};
ghost use Rattle.chains.specs.Links.{linked_pages, LeadsOn};
ghost use Rattle.chain_keys.specs.Gathering.{Followed};
ghost use Rattle.take_up.specs.Seen.{after_record, after_records, page_filled, fewest_on, after_page, pages_seen, Within, HomeFits, chain_saved, chains_saved, at_rest, CanSurvey};

use model::{
    COUNT_WORD, ChainAddress, FIRST_RECORD, LEVEL_WORD, PAGE_WORDS, Page, PageAddress,
    RECORD_WORDS, Root,
};

// The chain that is looked through, and the level that its keys are hashed by.
#[derive(Clone, Copy)]
pub struct Home {
    pub originals: u32,
    pub level: u32,
    pub chain: u32,
}

// Whether every word is zero, in all its bits. Every word is looked at, so that the compiler takes several at once:
// `all`, which stops at the first that is not, needs three times the instructions.
fn all_zero(words: &[u32]) -> bool
    ensures { result ≡ all_zero words.now }
{
    words.iter().fold(true, |clear, word| clear & (*word == 0))
}

// "A free page is zero except word 2, its link in the free list."
fn is_free(w: Page) -> bool
    ensures { result ≡ same_words w (free_page (link_of w)) }
{
    w[LEVEL_WORD] == 0 && w[COUNT_WORD] == 0 && all_zero(&w[FIRST_RECORD..])
}

// Whether the n pages that link `first` leads to are zero but for their links.
fn all_free(n: u32, first: u32, pages: &[u32]) -> bool
    requires { LeadsOn (Within pages.now) pages.now n first }
    ensures { result ≡ all_free pages.now (linked_pages pages.now n first) }
{
    let mut l = first;
    for _left in (0..n).rev() {
        let w = pages::load(pages, PageAddress(l - 1));
        if !is_free(w) {
            return false;
        }
        l = chains::link_of(w);
    }
    true
}

// "the free count is that of the list", and "free pages zeroed".
fn free_saved(root: Root, pages: &[u32]) -> bool
    requires { (page_words * (root.primaries + root.overflow) ≤ length pages.now) × (root.overflow ≤ 752) }
    ensures { result ≡ free_if_sound pages.now (pages_taken root pages.now root.free) }
{
    let Ok(l) = free_list::draw(root, root.free, pages) else {
        return false;
    };
    l == 0 && all_free(root.free, root.head, pages)
}

// "The local levels are level+1 on the first next chains and on those from N × 2^level to n − 1, level on those
// between."
#[tactic(auto, unfolding(model::specs::TakeUp::level_at, model::specs::Addresses::chain_count))]
fn level_at(root: Root, c: u32) -> u32
    requires { RootFits root }
    ensures { result ≡ level_at root c }
{
    let size = addresses::chain_count(root) - root.next;
    if c < root.next || size <= c {
        root.level + 1
    } else {
        root.level
    }
}

// A record is seen, whose key is `least` or more and at home: the least that the next key may be.
#[tactic(auto, unfolding(crate::specs::Seen::fits_home))]
fn after_record(home: Home, least: u64, key: u32) -> Option<u64>
    requires { HomeFits home }
    ensures { result ≡ after_record home least key }
{
    let at = addresses::hash(home.originals, home.level, mixing::mixed(key));
    let k = u64::from(key);
    if least <= k && at.0 == home.chain {
        Some(k + 1)
    } else {
        None
    }
}

// The records of a page are seen.
fn after_records(home: Home, least: u64, w: Page) -> Option<u64>
    requires { HomeFits home × (count_of w ≤ most_records) }
    ensures { result ≡ after_records home least (entries_of w) }
{
    let n = chains::count_of(w) as usize;
    let mut next = least;
    for i in 0..n {
        next = after_record(home, next, w[FIRST_RECORD + i * RECORD_WORDS])?;
    }
    Some(next)
}

// Whether a page has its level, as many records as it must, and zeros behind them.
#[tactic(auto, unfolding(crate::specs::Seen::page_filled))]
fn page_filled(w: Page, level: u32, fewest: u32) -> bool
    requires { count_of w ≤ most_records }
    ensures { result ≡ page_filled w level fewest }
{
    let n = chains::count_of(w);
    let behind = FIRST_RECORD + n as usize * RECORD_WORDS;
    chains::level_of(w) == level && fewest <= n && all_zero(&w[behind..])
}

// How many records a page must have: b where pages follow it, else so many as `last` says.
#[tactic(auto, unfolding(crate::specs::Seen::fewest_on))]
fn fewest_on(capacity: u32, left: u32, last: u32) -> u32
    ensures { result ≡ fewest_on capacity left last }
{
    if left == 0 { last } else { capacity }
}

// A page is seen: that it is filled, and its records.
#[tactic(auto, unfolding(crate::specs::Seen::after_page))]
fn after_page(home: Home, least: u64, w: Page, level: u32, fewest: u32) -> Option<u64>
    requires { HomeFits home × (count_of w ≤ most_records) }
    ensures { result ≡ after_page home least w level fewest }
{
    if page_filled(w, level, fewest) {
        after_records(home, least, w)
    } else {
        None
    }
}

// The primary page of a chain and the n overflow pages that were walked are looked through.
fn pages_saved(root: Root, home: Home, n: u32, pages: &[u32]) -> bool
    requires { HomeFits home × (home.chain * page_words + page_words ≤ length pages.now) × (count_of (page_of pages.now home.chain) ≤ most_records) × Followed pages.now n (link_of (page_of pages.now home.chain)) }
    ensures { result ≡ pages_seen root home n pages.now }
{
    let first = pages::load(pages, PageAddress(home.chain));
    let fewest = fewest_on(root.capacity, n, 0);
    let Some(start) = after_page(home, 0, first, home.level, fewest) else {
        return false;
    };
    let mut least = start;
    let mut l = chains::link_of(first);
    for left in (0..n).rev() {
        let w = pages::load(pages, PageAddress(l - 1));
        let Some(next) = after_page(home, least, w, 0, fewest_on(root.capacity, left, 1)) else {
            return false;
        };
        least = next;
        l = chains::link_of(w);
    }
    true
}

// How many overflow pages a chain has, where it is as it must be.
fn chain_saved(root: Root, c: u32, pages: &[u32]) -> Option<u32>
    requires { CanSurvey root pages.now × (c < count_of_chains root) }
    ensures { result ≡ chain_saved root pages.now c }
{
    let Ok(n) = chain_keys::walk(root, ChainAddress(c), pages) else {
        return None;
    };
    let home = Home {
        originals: root.originals,
        level: level_at(root, c),
        chain: c,
    };
    if pages_saved(root, home, n, pages) {
        Some(n)
    } else {
        None
    }
}

// How many overflow pages all chains have, where each is as it must be.
fn chains_saved(root: Root, count: u32, pages: &[u32]) -> Option<u32>
    requires { CanSurvey root pages.now × (count ≡ count_of_chains root) }
    ensures { result ≡ chains_saved root pages.now count 0 }
{
    let mut total = 0;
    for c in 0..count {
        total += chain_saved(root, c, pages)?;
    }
    Some(total)
}

// Whether the pages from page `from` to before page `to` are zero.
fn pages_zero(pages: &[u32], from: u32, to: u32) -> bool
    requires { (from ≤ to) × (to * page_words ≤ length pages.now) × (to ≤ 1024) }
    ensures { result ≡ zero_pages pages.now (to - from) from }
{
    let start = from as usize * PAGE_WORDS;
    let end = to as usize * PAGE_WORDS;
    all_zero(&pages[start..end])
}

// The conditions over root, locks and pages.
pub fn words_saved(root: Root, locks: &[u32], pages: &[u32]) -> bool
    requires { (within_limits root ≡ true) × (length locks.now ≡ lock_words root) × (length pages.now ≡ all_page_words root) }
    ensures { result ≡ is_saved (at_rest root locks.now pages.now) }
{
    if !refusals::root_sound(root) {
        return false;
    }
    if !all_zero(locks) {
        return false;
    }
    let overflow = root.primaries + root.overflow;
    if !pages_zero(pages, overflow, overflow + root.parties) {
        return false;
    }
    let count = addresses::chain_count(root);
    if !pages_zero(pages, count, root.primaries) {
        return false;
    }
    let Some(n) = chains_saved(root, count, pages) else {
        return false;
    };
    let counted = n + root.free;
    counted == root.overflow && free_saved(root, pages)
}
