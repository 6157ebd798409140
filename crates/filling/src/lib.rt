// Pages filled with a chain's records (document 01: "the first b in its primary page, the next b in its first overflow
// page, and so on"). Records come as words, two a record, key first.
// Main statements: pages_for is overflow_needed, page_words is filled_page, fill_pages is filled, for every list of
// records and of pages; write_chain writes a chain whole.

#![tactic(auto)]

ghost use Rattle.std.specs.Prelude.{◌≡◌, ◌+◌, ◌*◌, ◌^◌, ◌≤◌, ◌<◌, length, get_or, take, drop, min};
ghost use Rattle.model.specs.Sizes.{page_words, most_records, record_words};
ghost use Rattle.model.specs.Pages.{with_page, records_in, filled_page, link_to_first};
ghost use Rattle.model.specs.Filling.{overflow_needed, primary_of, filled, overflow_written};
ghost use Rattle.filling.specs.Fills.{Fillable};

use model::{
    COUNT_WORD, FIRST_RECORD, LEVEL_WORD, LINK_WORD, PAGE_WORDS, Page, PageAddress, RECORD_WORDS,
};

// "m keys need ceil(m/b) − 1 overflow pages, none for m = 0".
#[tactic(auto, unfolding(model::specs::Filling::overflow_needed))]
pub fn pages_for(b: u32, m: usize) -> usize
    requires { (1 ≤ b) × (b ≤ most_records) × (m < 2 ^ 32) }
    ensures { result ≡ overflow_needed b m }
{
    m.div_ceil(b as usize).saturating_sub(1)
}

// A page with these records; "word 15 zero. Unused key words are zero."
fn page_words(level: u32, records: &[u32], link: u32) -> Page
    requires { length records.now ≤ most_records * record_words }
    ensures { result ≡ filled_page level (records_in records.now) link }
{
    let n = records.len() / RECORD_WORDS;
    let mut w = [0u32; PAGE_WORDS];
    w[LEVEL_WORD] = level;
    w[COUNT_WORD] = n as u32;
    w[LINK_WORD] = link;
    // Record by record: a slice of so many words would be copied by a call of C's library.
    for i in 0..n {
        let key = i * RECORD_WORDS;
        w[FIRST_RECORD + key] = records[key];
        w[FIRST_RECORD + key + 1] = records[key + 1];
    }
    w
}

// How many words of the records that are left a page gets: those of b records, or all.
fn share(b: u32, records: &[u32]) -> usize
    requires { b ≤ most_records }
    ensures { result ≡ min (length records.now) (b * record_words) }
{
    records.len().min(b as usize * RECORD_WORDS)
}

// The link word that names page i of the list, 0 for none.
#[tactic(auto, using(crate::proofs::Fills::first_link_lem, crate::proofs::Fills::no_link))]
fn link_to(taken: &[u32], i: usize) -> u32
    requires { i < length taken.now → get_or taken.now i 0 + 1 < 2 ^ 32 }
    ensures { result ≡ link_to_first (drop i taken.now) }
{
    match taken.get(i) {
        Some(page) => *page + 1,
        None => 0,
    }
}

// The overflow pages of a chain, whose records behind its primary page's are these: those in `taken`, filled in order,
// "each linked to the next".
fn fill_pages(b: u32, records: &[u32], taken: &[u32], pages: &mut [u32])
    requires { (b ≤ most_records) × Fillable pages.old taken.now }
    ensures { pages.new ≡ filled b pages.old taken.now (records_in records.now) }
{
    let mut rest = records;
    for (i, page) in taken.iter().enumerate() {
        let (own, others) = rest.split_at(share(b, rest));
        let w = page_words(0, own, link_to(taken, i + 1));
        pages::store(pages, PageAddress(*page), w);
        rest = others;
    }
}

// A chain of the m records at the front: its overflow pages are those in `taken`, its primary page goes to `page`.
// The records are counted beside the buffer: its callers keep them at the front of one that has room behind them.
pub fn write_chain(
    b: u32,
    page: PageAddress,
    level: u32,
    words: &[u32],
    m: usize,
    taken: &[u32],
    pages: &mut [u32],
)
    requires { (b ≤ most_records) × ((m + most_records) * record_words ≤ length words.now) × Fillable pages.old taken.now × (page.0 * page_words + page_words ≤ length pages.old) }
    ensures { pages.new ≡ with_page (overflow_written b pages.old taken.now (take m (records_in words.now))) page.0 (primary_of b level (take m (records_in words.now)) taken.now) }
{
    let records = &words[..m * RECORD_WORDS];
    let (own, others) = records.split_at(share(b, records));
    fill_pages(b, others, taken, pages);
    let w = page_words(level, own, link_to(taken, 0));
    pages::store(pages, page, w);
}
