// A bucket chain looked through whole without keeping its records (document 01, steps 10 and 17): its pages are walked
// first, and then their keys are compared page by page.
// Main statements: place_of says whether a page has a key, where, and with which setting; ascend is the ascent of a
// page's records; examine is the ascent of all records from a link on; look_through is chain_of, scanned.

#![tactic(auto)]

ghost use Rattle.std.specs.Prelude.{◌≡◌, false, ◌+◌, ◌≤◌, MatchOption};
ghost use Rattle.model.specs.Sizes.{most_records};
ghost use Rattle.model.specs.Entries.{has_key};
ghost use Rattle.model.specs.Pages.{count_of, entries_of};
ghost use Rattle.model.specs.Chains.{chain_of};
ghost use Rattle.chain_keys.specs.Gathering.{CanWalk, Followed, entries_from};
ghost use Rattle.chain_scan.specs.Scans.{StandsAt, ascent_from, examined, scanned};

use model::{
    ChainAddress, Damaged, FIRST_RECORD, MOST_RECORDS, Page, PageAddress, RECORD_WORDS, Root,
};

// A chain that was looked through: its overflow pages, its records, and whether the key asked for is one of them.
#[derive(Clone, Copy)]
pub struct Looked {
    pub pages: u32,
    pub count: u32,
    pub found: bool,
}

// The place of key k among the records that a page counts, the first where there are several.
// All six keys are compared, from the end of the page on, so that no branch goes by where the key stands.
pub fn place_of(w: Page, k: u32) -> Option<usize>
    requires { count_of w ≤ most_records }
    ensures { MatchOption result (has_key k (entries_of w) ≡ false) (λ i. StandsAt w (entries_of w) k i) }
{
    let count = chains::count_of(w) as usize;
    let mut place = None;
    for i in (0..MOST_RECORDS as usize).rev() {
        if (w[FIRST_RECORD + i * RECORD_WORDS] == k) & (i < count) {
            place = Some(i);
        }
    }
    place
}

// The least key that may come next, where a page's keys ascend and the first is at least `floor`: one more than the
// last.
fn ascend(w: Page, floor: u64) -> Result<u64, Damaged>
    requires { count_of w ≤ most_records }
    ensures { result ≡ ascent_from floor (entries_of w) }
{
    let mut low = floor;
    for i in 0..chains::count_of(w) as usize {
        let k = u64::from(w[FIRST_RECORD + i * RECORD_WORDS]);
        if k < low {
            return Err(Damaged);
        }
        low = k + 1;
    }
    Ok(low)
}

// The records on the n + 1 pages from link `first` on: those of a primary page and its n overflow pages.
fn examine(first: u32, n: u32, key: u32, pages: &[u32]) -> Result<Looked, Damaged>
    requires { Followed pages.now (n + 1) first × (n ≤ 752) }
    ensures { result ≡ examined key n (entries_from pages.now (n + 1) first) }
{
    let mut l = first;
    let mut floor = 0;
    let mut count = 0;
    let mut found = false;
    for _ in 0..n + 1 {
        let w = pages::load(pages, PageAddress(l - 1));
        floor = ascend(w, floor)?;
        count += chains::count_of(w);
        found |= place_of(w, key).is_some();
        l = chains::link_of(w);
    }
    Ok(Looked {
        pages: n,
        count,
        found,
    })
}

// Chain `chain` looked through whole: every page is tested and its keys must ascend.
pub fn look_through(
    root: Root,
    chain: ChainAddress,
    key: u32,
    pages: &[u32],
) -> Result<Looked, Damaged>
    requires { CanWalk root pages.now chain.0 × (root.capacity ≤ most_records) × (root.overflow ≤ 752) }
    ensures { result ≡ scanned key (chain_of root pages.now chain.0) }
{
    let n = chain_keys::walk(root, chain, pages)?;
    examine(chain.0 + 1, n, key, pages)
}
