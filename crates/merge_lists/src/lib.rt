// Two lists of overflow pages given back one after the other (document 01, step 29: "the target's old pages, then the
// partner's"). On damaged memory a page may be on both lists, and giving back the first list writes over its link. So
// the second list is followed to its end before a word is written: its links are read on the way down a recursion,
// the first list is given back at the bottom, and the second list's pages are written on the way up. The stack grows
// with the second list.
// Main statements: last_link is the head that given_back leaves of one list, give_after and give_back_both are
// given_back of both lists as they were found.

#![tactic(auto)]

ghost use Rattle.std.specs.Prelude.{◌≡◌, ◌++◌, ◌+◌, ◌-◌, ◌*◌, ◌≤◌, length};
ghost use Rattle.model.specs.Sizes.{page_words};
ghost use Rattle.model.specs.Pages.{page_of, link_of};
ghost use Rattle.model.specs.Chains.{list_from};
ghost use Rattle.model.specs.FreeList.{given_back};
ghost use Rattle.free_list.specs.Giving.{CanGive, listed, returned, after_giving};
ghost use Rattle.merge_lists.specs.TwoLists.{CanGiveBoth, leaving};

use model::{LINK_WORD, PageAddress, Root};

// The link word to the last of the n pages that link `first` leads to, the head where there is none: the head once
// they are given back.
fn last_link(root: Root, first: u32, n: u32, pages: &[u32]) -> u32
    requires { CanGive root pages.now first n }
    ensures { result ≡ (given_back pages.now root.head (listed (list_from root pages.now first))).head }
{
    let mut last = root.head;
    let mut l = first;
    for _ in 0..n {
        last = l;
        l = pages::word(pages, PageAddress(l - 1), LINK_WORD);
    }
    last
}

// The n pages that link `first` leads to are given back, then the m pages that link `l` led to; `prev` is the head
// before these. The head then.
fn give_after(root: Root, first: u32, n: u32, prev: u32, l: u32, m: u32, pages: &mut [u32]) -> u32
    requires { CanGiveBoth root pages.old first n l m }
    ensures { leaving pages.new result ≡ given_back (given_back pages.old root.head (listed (list_from root pages.old first))).pages prev (listed (list_from root pages.old l)) }
{
    if m == 0 {
        free_list::give_back(root, first, n, pages);
        return prev;
    }
    let next = pages::word(&pages[..], PageAddress(l - 1), LINK_WORD);
    let last = give_after(root, first, n, l, next, m - 1, pages);
    pages::store(pages, PageAddress(l - 1), free_list::free_page(prev));
    last
}

// The n pages that link `first` leads to are given back, then the m pages that link `second` led to.
pub fn give_back_both(
    root: Root,
    first: u32,
    n: u32,
    second: u32,
    m: u32,
    pages: &mut [u32],
) -> Root
    requires { CanGiveBoth root pages.old first n second m }
    ensures { returned result pages.new ≡ after_giving root pages.old (listed (list_from root pages.old first) ++ listed (list_from root pages.old second)) }
{
    let prev = last_link(root, first, n, &pages[..]);
    let head = give_after(root, first, n, prev, second, m, pages);
    free_list::with_free_list(root, head, root.free + (n + m))
}
