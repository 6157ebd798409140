// Pages read from and written to the page memory, sixteen words each (document 01, "The lent memory").
// Main statements: load is page_of and word is one word of it, store is with_page, for every memory that has the page;
// zero is a list of zeros.

#![tactic(auto)]

ghost use Rattle.std.specs.Prelude.{◌≡◌, ◌+◌, ◌*◌, ◌≤◌, ◌<◌, length, get_or, replicate};
ghost use Rattle.model.specs.Sizes.{page_words};
ghost use Rattle.model.specs.Pages.{page_of, with_page};

use model::{PAGE_WORDS, Page, PageAddress};

// Where page `p` starts.
fn first_word(p: PageAddress) -> usize
    ensures { result ≡ p.0 * page_words }
{
    p.0 as usize * PAGE_WORDS
}

// The sixteen words of page `p`.
pub fn load(pages: &[u32], p: PageAddress) -> Page
    requires { p.0 * page_words + page_words ≤ length pages.now }
    ensures { result ≡ page_of pages.now p.0 }
{
    let start = first_word(p);
    let end = start + PAGE_WORDS;
    pages[start..end].try_into().unwrap()
}

// The word at `place` of page `p`: the page's other words are not read.
pub fn word(pages: &[u32], p: PageAddress, place: usize) -> u32
    requires { (p.0 * page_words + page_words ≤ length pages.now) × (place < page_words) }
    ensures { result ≡ get_or (page_of pages.now p.0) place 0 }
{
    pages[first_word(p) + place]
}

// "A step that writes a page is handed only that page's words": `page` is those, and they become `w`.
fn fill(page: &mut [u32], w: Page)
    requires { length page.old ≡ page_words }
    ensures { page.new ≡ w }
{
    page.copy_from_slice(&w);
}

// Page `p` becomes `w`.
pub fn store(pages: &mut [u32], p: PageAddress, w: Page)
    requires { p.0 * page_words + page_words ≤ length pages.old }
    ensures { pages.new ≡ with_page pages.old p.0 w }
{
    let start = first_word(p);
    let end = start + PAGE_WORDS;
    fill(&mut pages[start..end], w);
}

// Every word becomes zero.
pub fn zero(words: &mut [u32])
    ensures { words.new ≡ replicate (length words.old) 0 }
{
    words.fill(0);
}
