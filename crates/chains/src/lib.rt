// Pages followed by their links, with the tests of damage (document 01, "Refused calls").
// Main statements: names_overflow, link_sound and page_sound are the model's tests, for every word; words_sound is the
// test of a page over its first three words; count_pages is list_from, counted.

#![tactic(auto)]

ghost use Rattle.std.specs.Prelude.{◌≡◌, true, ◌+◌, ◌*◌, ◌≤◌, length};
ghost use Rattle.model.specs.Sizes.{page_words};
ghost use Rattle.model.specs.Pages as Pages;
ghost use Rattle.model.specs.Chains.{list_from};
ghost use Rattle.chains.specs.Walks.{words_sound, counted};

use model::{COUNT_WORD, Damaged, LEVEL_WORD, LINK_WORD, Page, PageAddress, Root};

// "Word 0 is the local level".
#[tactic(auto, unfolding(model::specs::Pages::level_of))]
pub fn level_of(w: Page) -> u32
    ensures { result ≡ Pages.level_of w }
{
    w[LEVEL_WORD]
}

// "word 1 the key count".
#[tactic(auto, unfolding(model::specs::Pages::count_of))]
pub fn count_of(w: Page) -> u32
    ensures { result ≡ Pages.count_of w }
{
    w[COUNT_WORD]
}

// "word 2 the link (page number plus one, 0 for none)".
#[tactic(auto, unfolding(model::specs::Pages::link_of))]
pub fn link_of(w: Page) -> u32
    ensures { result ≡ Pages.link_of w }
{
    w[LINK_WORD]
}

// Whether a link word names an overflow page: these follow the primary pages.
#[tactic(auto, unfolding(model::specs::Pages::names_overflow))]
pub fn names_overflow(root: Root, l: u32) -> bool
    ensures { result ≡ Pages.names_overflow root l }
{
    root.primaries < l && l - root.primaries <= root.overflow
}

// Whether a link word names no page or an overflow page.
#[tactic(auto, unfolding(model::specs::Pages::link_sound))]
pub fn link_sound(root: Root, l: u32) -> bool
    ensures { result ≡ Pages.link_sound root l }
{
    l == 0 || names_overflow(root, l)
}

// "on a page the step follows, count above b, local level above 9 ... or a link to no overflow page" is damage: the
// three words that are tested.
#[tactic(auto, unfolding(crate::specs::Walks::words_sound))]
pub fn words_sound(root: Root, level: u32, count: u32, link: u32) -> bool
    ensures { result ≡ words_sound root level count link }
{
    count <= root.capacity && level <= 9 && link_sound(root, link)
}

// The same test of a page.
#[tactic(auto, unfolding(crate::specs::Walks::words_sound, model::specs::Pages::page_sound))]
pub fn page_sound(root: Root, w: Page) -> bool
    ensures { result ≡ Pages.page_sound root w }
{
    words_sound(root, level_of(w), count_of(w), link_of(w))
}

// How many pages the link leads to: each is tested, and "a chain of more than V overflow pages" is damage.
pub fn count_pages(root: Root, pages: &[u32], first: u32) -> Result<u32, Damaged>
    requires { (Pages.link_sound root first ≡ true) × (page_words * (root.primaries + root.overflow) ≤ length pages.now) }
    ensures { result ≡ counted (list_from root pages.now first) }
{
    let mut l = first;
    for n in 0..=root.overflow {
        if l == 0 {
            return Ok(n);
        }
        let page = PageAddress(l - 1);
        let level = pages::word(pages, page, LEVEL_WORD);
        let count = pages::word(pages, page, COUNT_WORD);
        let link = pages::word(pages, page, LINK_WORD);
        if !words_sound(root, level, count, link) {
            return Err(Damaged);
        }
        l = link;
    }
    Err(Damaged)
}
