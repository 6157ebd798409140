// A new chain written without buffers (document 01, steps 10 and 17): each page is made on the way down and written
// on the way up, so that everything is read before anything is written. A free page may also be a page of the chain
// that is read.
// Main statements: page_of is filled_page of the next records; write_chain is all_written, for every memory.

#![tactic(auto)]

ghost use Rattle.std.specs.Prelude.{◌≡◌, ◌+◌, ◌≤◌, length};
ghost use Rattle.model.specs.Sizes.{most_records};
ghost use Rattle.key_source.specs.Sources.{Sits, CanChoose, chosen_of};
ghost use Rattle.chain_writer.specs.Writing.{HasPage, all_written, CanWrite};

use key_source::Source;
use model::{
    COUNT_WORD, FIRST_RECORD, LEVEL_WORD, LINK_WORD, PAGE_WORDS, Page, PageAddress, RECORD_WORDS,
};

// A chain to be written: its local level, how many records it gets, where they come from, and the page for its primary
// page.
#[derive(Clone, Copy)]
pub struct Planned {
    pub level: u32,
    pub left: u32,
    pub source: Source,
    pub to: PageAddress,
}

// A page made, and the source of the records after its own.
#[derive(Clone, Copy)]
struct Filled {
    w: Page,
    source: Source,
}

// A page of the next n records, and the source of the others.
fn page_of(level: u32, n: u32, link: u32, s: Source, pages: &[u32]) -> Filled
    requires { (n ≤ most_records) × Sits pages.now s.place × CanChoose s.choice × (n ≤ length (chosen_of pages.now s)) }
    ensures { HasPage pages.now level n link s result }
{
    let mut w = [0u32; PAGE_WORDS];
    w[LEVEL_WORD] = level;
    w[COUNT_WORD] = n;
    w[LINK_WORD] = link;
    let mut source = s;
    for i in 0..n as usize {
        let next = key_source::next(pages, source);
        w[FIRST_RECORD + i * RECORD_WORDS] = next.entry.key;
        w[FIRST_RECORD + i * RECORD_WORDS + 1] = next.entry.setting;
        source = next.source;
    }
    Filled { w, source }
}

// The chain c is written to its page and on to free pages, `free` the link to the first of these; after them the
// rest, where there is one. Both are lent, so that a turn of the recursion copies neither.
pub fn write_chain(b: u32, c: &Planned, free: u32, rest: &Option<Planned>, pages: &mut [u32])
    requires { CanWrite b c.now free rest.now pages.old }
    ensures { pages.new ≡ all_written b c.now free rest.now pages.old }
{
    if b < c.left {
        let page = page_of(c.level, b, free, c.source, &pages[..]);
        let next = PageAddress(free - 1);
        let after = pages::word(&pages[..], next, LINK_WORD);
        let others = Planned {
            level: 0,
            left: c.left - b,
            source: page.source,
            to: next,
        };
        write_chain(b, &others, after, rest, pages);
        pages::store(pages, c.to, page.w);
    } else {
        let last = page_of(c.level, c.left, 0, c.source, &pages[..]);
        if let Some(d) = rest {
            write_chain(b, d, free, &None, pages);
        }
        pages::store(pages, c.to, last.w);
    }
}
