// Step 10 on a chain of many pages (document 01, "The thirty steps"): looked through, then written to new pages as it
// is read, without a buffer.
// Main statement: change_many is the model's step10, for every chain; all is read before a word is written.

#![tactic(auto)]

ghost use Rattle.std.specs.Prelude.{◌≡◌, List, ℕ};
ghost use Rattle.model.specs.Steps.Rebuild as Rebuild;
ghost use Rattle.records.specs.Work.{seen};
ghost use Rattle.chain_change.specs.Changing.{after_change, CanChange};
ghost use Rattle.many_pages.specs.Many.{CanWriteMany};

use chain_change::{Changed, Rebuilt};
use chain_writer::Planned;
use key_source::{Choice, Source};
use model::{ChainAddress, Damaged, Entry, INSERT, LEVEL_WORD, NO_PAGE, PageAddress};
use records::Working;

// The chosen records, m of them, in new pages, for a chain that had n overflow pages. "if fewer pages are free than
// the new chain needs, the answer is no page".
fn write_many(
    work: &Working,
    n: u32,
    choice: Choice,
    m: u32,
    pages: &mut [u32],
) -> Result<Changed, Damaged>
    requires { CanWriteMany work.now n choice m pages.old }
    ensures { (ls : List ℕ) → after_change (seen work.now ls pages.old) pages.new result ≡ Rebuild.step10 (seen work.now ls pages.old) }
{
    let root = work.root;
    let chain = PageAddress(work.party.chain);
    let k = filling::pages_for(root.capacity, m as usize);
    if (root.free as usize) < k {
        return Ok(Changed::Kept(NO_PAGE));
    }
    let taken = k as u32;
    let head = free_list::draw(root, taken, &pages[..])?;
    let level = pages::word(&pages[..], chain, LEVEL_WORD);
    let place = key_source::first_place(&pages[..], chain, n);
    let planned = Planned {
        level,
        left: m,
        source: Source { choice, place },
        to: endings::scratch_page(root, work.number),
    };
    chain_writer::write_chain(root.capacity, &planned, root.head, &None, pages);
    Ok(Changed::Written(Rebuilt {
        answer: chain_change::changed_answer(work.party.operation),
        owed: chain_change::owed_by(work.party.operation, n, taken, m),
        taken,
        head,
    }))
}

// Step 10, whatever the chain's length.
pub fn change_many(work: &Working, pages: &mut [u32]) -> Result<Changed, Damaged>
    requires { CanChange work.now pages.old }
    ensures { (ls : List ℕ) → after_change (seen work.now ls pages.old) pages.new result ≡ Rebuild.step10 (seen work.now ls pages.old) }
{
    let party = work.party;
    let chain = ChainAddress(party.chain);
    let l = chain_scan::look_through(work.root, chain, party.key, &pages[..])?;
    let inserts = party.operation == INSERT;
    // An insert of a key that is there changes nothing, nor does a delete of one that is not.
    if l.found == inserts {
        return Ok(Changed::Kept(chain_change::kept_answer(party.operation)));
    }
    if inserts {
        let e = Entry {
            key: party.key,
            setting: party.setting,
        };
        return write_many(work, l.pages, Choice::With(e), l.count + 1, pages);
    }
    write_many(
        work,
        l.pages,
        Choice::Without(party.key),
        l.count - 1,
        pages,
    )
}
