// The records of a new chain, one after the other, read where they stand (document 01, steps 10 and 17): a place in a
// chain, and which of the chain's records are chosen.
// Main statements: first_place is the place of a page's first record; next gives the first of the records chosen and
// the source of the others; count says how many there are.

#![tactic(auto)]

ghost use Rattle.std.specs.Prelude.{◌≡◌, [], ◌++◌, ◌+◌, ◌-◌, ◌^◌, ◌≤◌, ◌<◌, eqb, length};
ghost use Rattle.model.specs.Addresses.{hash};
ghost use Rattle.model.specs.Pages.{page_of, link_of, entries_of};
ghost use Rattle.chain_keys.specs.Gathering.{entries_from};
ghost use Rattle.key_source.specs.Sources.{records_at, Sits, CanStart, onward, chosen, CanHalve, CanChoose, kept, extra_records, chosen_of, entry_at, Gives};

use model::{
    COUNT_WORD, ChainAddress, Entry, FIRST_RECORD, LINK_WORD, PAGE_WORDS, PageAddress, RECORD_WORDS,
};

// A place in a chain: the first word of the next record, how many records its page has from there on, the page's
// link, and how many pages that leads to.
#[derive(Clone, Copy)]
pub struct Place {
    pub at: usize,
    pub left: u32,
    pub link: u32,
    pub pages: u32,
}

// How a split divides keys: h_level over the original chains, and the chain whose keys stay.
#[derive(Clone, Copy)]
pub struct Halving {
    pub originals: u32,
    pub level: u32,
    pub chain: ChainAddress,
}

// Which records of a chain a new chain has: all of them; these and one more; all but that of a key; those that stay,
// or go, in a split.
#[derive(Clone, Copy)]
pub enum Choice {
    All,
    With(Entry),
    Without(u32),
    Staying(Halving),
    Going(Halving),
}

#[derive(Clone, Copy)]
pub struct Source {
    pub choice: Choice,
    pub place: Place,
}

// The next record, and the source of those after it.
#[derive(Clone, Copy)]
pub struct Given {
    pub entry: Entry,
    pub source: Source,
}

// The first record of a page whose link leads to n pages.
pub fn first_place(pages: &[u32], page: PageAddress, n: u32) -> Place
    requires { CanStart pages.now page.0 n }
    ensures { Sits pages.now result × (result.pages ≡ n) × (records_at pages.now result ≡ entries_of (page_of pages.now page.0) ++ entries_from pages.now n (link_of (page_of pages.now page.0))) }
{
    Place {
        at: page.0 as usize * PAGE_WORDS + FIRST_RECORD,
        left: pages::word(pages, page, COUNT_WORD),
        link: pages::word(pages, page, LINK_WORD),
        pages: n,
    }
}

// The same place past the pages that have no record left.
// A walk from place to place: no index is counted.
pub fn settled(pages: &[u32], p: Place) -> Place
    requires { Sits pages.now p }
    ensures { Sits pages.now result × (records_at pages.now result ≡ records_at pages.now p) × (result.left ≡ 0 → records_at pages.now result ≡ []) }
{
    let mut q = p;
    while q.left == 0 && 0 < q.pages {
        q = first_place(pages, PageAddress(q.link - 1), q.pages - 1);
    }
    q
}

// The record at a place.
pub fn entry_at(pages: &[u32], p: Place) -> Entry
    requires { Sits pages.now p × (1 ≤ p.left) }
    ensures { result ≡ entry_at pages.now p.at }
{
    Entry {
        key: pages[p.at],
        setting: pages[p.at + 1],
    }
}

// One record further on the same page.
pub fn passed(p: Place) -> Place
    requires { (1 ≤ p.left) × (p.at + 2 < 2 ^ 64) }
    ensures { result ≡ onward p }
{
    Place {
        at: p.at + RECORD_WORDS,
        left: p.left - 1,
        ..p
    }
}

// Whether a key stays.
pub fn stays(h: Halving, k: u32) -> bool
    requires { CanHalve h }
    ensures { result ≡ eqb (hash h.originals h.level k) h.chain.0 }
{
    let m = mixing::mixed(k);
    let home = addresses::hash(h.originals, h.level, m);
    home == h.chain
}

// Whether a record of the chain is chosen, by its key.
#[tactic(auto, unfolding(crate::specs::Sources::kept))]
fn keeps(c: Choice, k: u32) -> bool
    requires { CanChoose c }
    ensures { result ≡ kept c k }
{
    match c {
        Choice::All | Choice::With(_) => true,
        Choice::Without(x) => k != x,
        Choice::Staying(h) => stays(h, k),
        Choice::Going(h) => !stays(h, k),
    }
}

// The first of the records from a place on and one more, x, which "goes before the first larger key", and the source
// of the others.
fn next_with(pages: &[u32], x: Entry, p: Place) -> Given
    requires { Sits pages.now p }
    ensures { Gives pages.now (chosen (Choice.With x) (records_at pages.now p)) result }
{
    let q = settled(pages, p);
    if q.left == 0 || x.key < pages[q.at] {
        return Given {
            entry: x,
            source: Source {
                choice: Choice::All,
                place: q,
            },
        };
    }
    Given {
        entry: entry_at(pages, q),
        source: Source {
            choice: Choice::With(x),
            place: passed(q),
        },
    }
}

// The first record from a place on that is chosen, and the source of the others; there is none in addition.
// A walk from place to place: no index is counted.
fn next_kept(pages: &[u32], c: Choice, p: Place) -> Given
    requires { Sits pages.now p × CanChoose c × (extra_records c ≡ 0) × (1 ≤ length (chosen c (records_at pages.now p))) }
    ensures { Gives pages.now (chosen c (records_at pages.now p)) result }
{
    let mut q = p;
    loop {
        q = settled(pages, q);
        let entry = entry_at(pages, q);
        q = passed(q);
        if keeps(c, entry.key) {
            return Given {
                entry,
                source: Source {
                    choice: c,
                    place: q,
                },
            };
        }
    }
}

// The first of the records chosen, and the source of the others.
pub fn next(pages: &[u32], s: Source) -> Given
    requires { Sits pages.now s.place × CanChoose s.choice × (1 ≤ length (chosen_of pages.now s)) }
    ensures { Gives pages.now (chosen_of pages.now s) result }
{
    match s.choice {
        Choice::With(x) => next_with(pages, x, s.place),
        c => next_kept(pages, c, s.place),
    }
}

// How many records come in addition.
fn extra_records(c: Choice) -> u32
    ensures { result ≡ extra_records c }
{
    match c {
        Choice::With(_) => 1,
        _ => 0,
    }
}

// How many records are chosen.
// A walk from place to place: no index is counted.
pub fn count(pages: &[u32], s: Source) -> u32
    requires { Sits pages.now s.place × CanChoose s.choice }
    ensures { result ≡ length (chosen_of pages.now s) }
{
    let mut p = settled(pages, s.place);
    let mut sum = extra_records(s.choice);
    while 0 < p.left {
        sum += u32::from(keeps(s.choice, pages[p.at]));
        p = settled(pages, passed(p));
    }
    sum
}
