// The free list (document 01: "Pages are taken from the head; a page given back becomes the head").
// Main statements: free_page is free_page; give_back is given_back of the pages that a link leads to, and take_back of
// the same pages in reverse order, for every memory in which they were walked; take_pages is pages_taken and draw what
// pages_taken leaves, for every memory; is_marked and mark read and set one bit.

#![tactic(auto)]

ghost use Rattle.std.specs.Prelude.{◌≡◌, reverse, ◌+◌, ◌*◌, ◌≤◌, ◌<◌, length, take};
ghost use Rattle.model.specs.Records.{with_free_list};
ghost use Rattle.model.specs.Sizes.{page_words};
ghost use Rattle.model.specs.Pages.{free_page};
ghost use Rattle.model.specs.Chains.{list_from};
ghost use Rattle.model.specs.FreeList.{pages_taken};
ghost use Rattle.free_list.specs.Giving.{CanGive, listed, link_or, returned, after_giving};
ghost use Rattle.free_list.specs.Marks.{is_marked, with_mark, marks_with, followed};
ghost use Rattle.free_list.specs.Taking.{drawn_as, drawn};

use model::{Damaged, LINK_WORD, PAGE_WORDS, Page, PageAddress, Root};

// "A free page is zero except word 2, its link in the free list."
#[tactic(auto, unfolding(model::specs::Pages::free_page, model::specs::Pages::filled_page, model::specs::Pages::words_of))]
pub fn free_page(link: u32) -> Page
    ensures { result ≡ free_page link }
{
    let mut page = [0; PAGE_WORDS];
    page[LINK_WORD] = link;
    page
}

// The root record with another free list: its head, as a link word, and its length.
pub fn with_free_list(root: Root, head: u32, free: u32) -> Root
    ensures { result ≡ with_free_list head free root }
{
    Root { head, free, ..root }
}

// The n pages that link `first` leads to are given back in order: each "becomes the head".
// A page's link is read before the page is written. The list was walked to its end, so it names no page twice, and no
// link is read from a page given back.
pub fn give_back(root: Root, first: u32, n: u32, pages: &mut [u32]) -> Root
    requires { CanGive root pages.old first n }
    ensures { returned result pages.new ≡ after_giving root pages.old (listed (list_from root pages.old first)) }
{
    let mut head = root.head;
    let mut l = first;
    for _ in 0..n {
        let p = PageAddress(l - 1);
        let next = pages::word(&pages[..], p, LINK_WORD);
        pages::store(pages, p, free_page(head));
        head = l;
        l = next;
    }
    with_free_list(root, head, root.free + n)
}

// The link l, where it names a page; else the link `head`.
fn link_or(l: u32, head: u32) -> u32
    ensures { result ≡ link_or l head }
{
    if l == 0 { head } else { l }
}

// The n pages that link `first` leads to are given back in reverse order. The first of them is then the head: each
// page keeps its link and is else zeroed, and the last leads to the former head. This is no case of give_back: there a
// page is linked to the one before it, here to the one after it.
pub fn take_back(root: Root, first: u32, n: u32, pages: &mut [u32]) -> Root
    requires { CanGive root pages.old first n }
    ensures { returned result pages.new ≡ after_giving root pages.old (reverse (listed (list_from root pages.old first))) }
{
    let mut l = first;
    for _ in 0..n {
        let p = PageAddress(l - 1);
        l = pages::word(&pages[..], p, LINK_WORD);
        pages::store(pages, p, free_page(link_or(l, root.head)));
    }
    with_free_list(root, link_or(first, root.head), root.free + n)
}

// Whether number v is marked: a bit for each number, 32 to a word.
fn is_marked(marks: &[u32], v: u32) -> bool
    requires { v < 32 * length marks.now }
    ensures { result ≡ is_marked marks.now v }
{
    let w = marks[(v / 32) as usize];
    (w >> (v % 32)) & 1 == 1
}

// Number v is marked.
fn mark(marks: &mut [u32], v: u32)
    requires { v < 32 * length marks.old }
    ensures { marks.new ≡ with_mark marks.old v }
{
    marks[(v / 32) as usize] |= 1 << (v % 32);
}

// The link of the page that link l names, which is then marked. "a free list that ends, or names a page twice or no
// overflow page, before the pages taken" is damage.
fn next_link(root: Root, l: u32, pages: &[u32], marks: &mut [u32]) -> Result<u32, Damaged>
    requires { (page_words * (root.primaries + root.overflow) ≤ length pages.now) × (root.overflow ≤ 32 * length marks.old) }
    ensures link { result ≡ followed root marks.old pages.now l }
    ensures marks { marks.new ≡ marks_with root marks.old l }
{
    if !chains::names_overflow(root, l) {
        return Err(Damaged);
    }
    let page = l - 1;
    let number = page - root.primaries;
    if is_marked(&marks[..], number) {
        return Err(Damaged);
    }
    mark(marks, number);
    Ok(pages::word(pages, PageAddress(page), LINK_WORD))
}

// The k pages at the head of the free list go into `taken`, in order. What is left is the link word that is then the
// head. No word of the page memory changes.
pub fn take_pages(root: Root, k: usize, pages: &[u32], taken: &mut [u32]) -> Result<u32, Damaged>
    requires { (page_words * (root.primaries + root.overflow) ≤ length pages.now) × (root.overflow ≤ 752) × (k ≤ length taken.old) }
    ensures { drawn_as result (take k taken.new) ≡ pages_taken root pages.now k }
{
    // A bit for each of 752 pages, since there is no heap.
    let mut marks = [0u32; 24];
    let mut l = root.head;
    for page in &mut taken[..k] {
        let next = next_link(root, l, pages, &mut marks)?;
        *page = l - 1;
        l = next;
    }
    Ok(l)
}

// The same for pages that are not kept: they are only tested.
pub fn draw(root: Root, k: u32, pages: &[u32]) -> Result<u32, Damaged>
    requires { (page_words * (root.primaries + root.overflow) ≤ length pages.now) × (root.overflow ≤ 752) }
    ensures { result ≡ drawn (pages_taken root pages.now k) }
{
    let mut marks = [0u32; 24];
    let mut l = root.head;
    for _ in 0..k {
        l = next_link(root, l, pages, &mut marks)?;
    }
    Ok(l)
}
