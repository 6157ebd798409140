// Two chains of a merge joined, read where they stand (document 01, step 26; document 02, change 4).
// Main statements: shares_key is shares_key of the records from two places on, joined_page is filled_page of both
// joined, for every memory in which they ascend.

#![tactic(auto)]

ghost use Rattle.std.specs.Prelude.{◌≡◌, ◌+◌, ◌≤◌, length};
ghost use Rattle.model.specs.Sizes.{most_records};
ghost use Rattle.model.specs.Entries.{joined, shares_key};
ghost use Rattle.model.specs.Pages.{filled_page};
ghost use Rattle.key_source.specs.Sources.{records_at, Sits};
ghost use Rattle.merge_join.specs.Joining.{CanJoin, goes_first, Takes};

use key_source::Place;
use model::{COUNT_WORD, Entry, FIRST_RECORD, LEVEL_WORD, PAGE_WORDS, Page, RECORD_WORDS};
use std::cmp::Ordering;

// The next record of two chains joined, and the places after it.
#[derive(Clone, Copy)]
struct Taken {
    entry: Entry,
    first: Place,
    second: Place,
}

// Whether a key is in both chains: the smaller of the next keys is passed each time.
// A walk from place to place in both: no index is counted.
pub fn shares_key(first: Place, second: Place, pages: &[u32]) -> bool
    requires { CanJoin pages.now first second }
    ensures { result ≡ shares_key (records_at pages.now first) (records_at pages.now second) }
{
    let mut p = key_source::settled(pages, first);
    let mut q = key_source::settled(pages, second);
    while 0 < p.left && 0 < q.left {
        match pages[p.at].cmp(&pages[q.at]) {
            Ordering::Equal => return true,
            Ordering::Less => p = key_source::settled(pages, key_source::passed(p)),
            Ordering::Greater => q = key_source::settled(pages, key_source::passed(q)),
        }
    }
    false
}

// Whether the next record of both is the first's.
#[tactic(auto, unfolding(crate::specs::Joining::goes_first))]
fn comes_first(p: Place, q: Place, pages: &[u32]) -> bool
    requires { Sits pages.now p × Sits pages.now q }
    ensures { result ≡ goes_first pages.now p q }
{
    q.left == 0 || 0 < p.left && pages[p.at] < pages[q.at]
}

// The next record of both.
fn take_next(first: Place, second: Place, pages: &[u32]) -> Taken
    requires { CanJoin pages.now first second × (1 ≤ length (records_at pages.now first) + length (records_at pages.now second)) }
    ensures { Takes pages.now first second result }
{
    let p = key_source::settled(pages, first);
    let q = key_source::settled(pages, second);
    if comes_first(p, q, pages) {
        return Taken {
            entry: key_source::entry_at(pages, p),
            first: key_source::passed(p),
            second: q,
        };
    }
    Taken {
        entry: key_source::entry_at(pages, q),
        first: p,
        second: key_source::passed(q),
    }
}

// The primary page of the joined chain, whose n records it holds all. It is filled as chain_writer fills a page: one
// function for both would need a trait of what gives records, with longer statements than this loop.
pub fn joined_page(level: u32, n: u32, first: Place, second: Place, pages: &[u32]) -> Page
    requires { CanJoin pages.now first second × (n ≤ most_records) × (n ≡ length (joined (records_at pages.now first) (records_at pages.now second))) }
    ensures { result ≡ filled_page level (joined (records_at pages.now first) (records_at pages.now second)) 0 }
{
    let mut w = [0u32; PAGE_WORDS];
    w[LEVEL_WORD] = level;
    w[COUNT_WORD] = n;
    let mut p = first;
    let mut q = second;
    for i in 0..n as usize {
        let next = take_next(p, q, pages);
        w[FIRST_RECORD + i * RECORD_WORDS] = next.entry.key;
        w[FIRST_RECORD + i * RECORD_WORDS + 1] = next.entry.setting;
        p = next.first;
        q = next.second;
    }
    w
}
