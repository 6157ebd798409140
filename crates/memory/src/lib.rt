// What format makes of the lent words (document 01: "Format makes N empty chains of level 0, lists overflow pages
// ascending and zeroes the rest").
// Main statement: format_words leaves the root record, the lock words and the page words of the model's formatted
// memory, whatever stood there.

#![tactic(auto)]

ghost use Rattle.std.specs.Prelude.{◌≡◌, length, replicate};
ghost use Rattle.model.specs.Sizes.{all_page_words};
ghost use Rattle.model.specs.Records.{root_sized};
ghost use Rattle.model.specs.Memory.{formatted_root, formatted_pages, formatted};
ghost use Rattle.memory.specs.Lent.{CanFormat, SizesFit};

use model::{FileSizes, PageAddress, Root};

// The overflow pages of zeroed page words become the free list, from the last page to the first: each is linked to the
// page above it, the last to none. The link word to the first is the head, 0 where there is no overflow page.
fn list_overflow(root: Root, pages: &mut [u32]) -> u32
    requires { SizesFit root × (pages.old ≡ replicate (all_page_words root) 0) }
    ensures { (result ≡ (formatted_root root).head) × (pages.new ≡ formatted_pages root) }
{
    let mut link = 0;
    for x in (root.primaries..root.primaries + root.overflow).rev() {
        pages::store(pages, PageAddress(x), free_list::free_page(link));
        link = x + 1;
    }
    link
}

// Format with these sizes, over lent words of the lengths that they ask for.
pub fn format_words(sizes: FileSizes, locks: &mut [u32], pages: &mut [u32]) -> Root
    requires { CanFormat (root_sized sizes) (length locks.old) (length pages.old) }
    ensures { (result ≡ (formatted (root_sized sizes)).root) × (locks.new ≡ (formatted (root_sized sizes)).locks) × (pages.new ≡ (formatted (root_sized sizes)).pages) }
{
    locks.fill(0);
    pages.fill(0);
    let root = records::root_of_sizes(sizes);
    let head = list_overflow(root, pages);
    free_list::with_free_list(root, head, sizes.overflow)
}
