// Step 10 on a chain of few pages (document 01, "The thirty steps"): its records are gathered in a small buffer,
// changed there and written to new pages.
// Main statement: change_few is the model's step10, for every chain of at most chain_keys::FEW overflow pages; all is
// read before a word is written.
// Records are counted beside the buffer: put_in needs room for one more than there are, filling::write_chain for six.

#![tactic(auto)]

ghost use Rattle.std.specs.Prelude.{◌≡◌, List, ℕ, ◌+◌, ◌≤◌, length, take};
ghost use Rattle.model.specs.Pages.{records_in};
ghost use Rattle.model.specs.Chains.{Chain, chain_of, sound};
ghost use Rattle.model.specs.Steps.Rebuild as Rebuild;
ghost use Rattle.records.specs.Work.{seen};
ghost use Rattle.chain_change.specs.Changing.{after_change, changed_answer};
ghost use Rattle.few_pages.specs.Few.{CanWriteFew, CanChangeFront, CanChangeFew};

use chain_change::{Changed, Rebuilt};
use model::{ChainAddress, Damaged, Entry, INSERT, NO_PAGE, Party, RECORD_WORDS};
use records::Working;

// The m changed records at the front of the buffer in new pages, for a chain that had n overflow pages and this local
// level. "if fewer pages are free than the new chain needs, the answer is no page".
fn write_few(
    work: &Working,
    n: u32,
    level: u32,
    words: &[u32],
    m: usize,
    pages: &mut [u32],
) -> Result<Changed, Damaged>
    requires { CanWriteFew work.now m words.now pages.old }
    ensures { (ls : List ℕ) (c : Chain) → chain_of work.now.root pages.old work.now.party.chain ≡ sound c → level ≡ c.level → n ≡ length c.pages → Rebuild.changed (changed_answer work.now.party.operation) (take m (records_in words.now)) ≡ Rebuild.change_of work.now.party.operation work.now.party.key work.now.party.setting c.entries → after_change (seen work.now ls pages.old) pages.new result ≡ Rebuild.step10 (seen work.now ls pages.old) }
{
    let root = work.root;
    let k = filling::pages_for(root.capacity, m);
    if (root.free as usize) < k {
        return Ok(Changed::Kept(NO_PAGE));
    }
    let mut taken = [0u32; 8];
    let head = free_list::take_pages(root, k, &pages[..], &mut taken)?;
    let scratch = endings::scratch_page(root, work.number);
    filling::write_chain(root.capacity, scratch, level, words, m, &taken[..k], pages);
    Ok(Changed::Written(Rebuilt {
        answer: chain_change::changed_answer(work.party.operation),
        owed: chain_change::owed_by(work.party.operation, n, k as u32, m as u32),
        taken: k as u32,
        head,
    }))
}

// The party's record put in at its place among the `count` at the front, or left out there: how many they are then.
fn change_front(party: Party, at: usize, count: usize, words: &mut [u32]) -> usize
    requires { CanChangeFront party at count words.old }
    ensures { (Rebuild.changed (changed_answer party.operation) (take result (records_in words.new)) ≡ Rebuild.change_of party.operation party.key party.setting (take count (records_in words.old))) × (result ≤ count + 1) }
{
    if party.operation == INSERT {
        let e = Entry {
            key: party.key,
            setting: party.setting,
        };
        entries::put_in(words, at, count, e);
        return count + 1;
    }
    entries::leave_out(words, at, count);
    count - 1
}

// Step 10 on a chain of which n overflow pages, few, were walked. Its records, one more, and the room for six that
// filling asks for behind them take 110 words.
// Not put into its callers, so that only step 10 takes the stack of its buffer.
#[inline(never)]
pub fn change_few(work: &Working, n: u32, pages: &mut [u32]) -> Result<Changed, Damaged>
    requires { CanChangeFew work.now n pages.old }
    ensures { (ls : List ℕ) → after_change (seen work.now ls pages.old) pages.new result ≡ Rebuild.step10 (seen work.now ls pages.old) }
{
    let party = work.party;
    let mut words = [0u32; 110];
    let g = chain_keys::gather(
        work.root,
        ChainAddress(party.chain),
        n,
        &pages[..],
        &mut words,
    )?;
    let records = &words[..g.count * RECORD_WORDS];
    let at = entries::below(records, party.key);
    let found = entries::has_at(records, at, party.key);
    // An insert of a key that is there changes nothing, nor does a delete of one that is not.
    if found == (party.operation == INSERT) {
        return Ok(Changed::Kept(chain_change::kept_answer(party.operation)));
    }
    let m = change_front(party, at, g.count, &mut words);
    write_few(work, n, g.level, &words, m, pages)
}
