// Where a party stands in the waiting row (document 02, change 7), of a file that is lent.
// The row is looked through a word at a time, and with each word the record of the party that it names; nothing is
// written.
// Main statement: standing and placing answer place_of of the root, the records and the row, wherever the party has a
// record, there are at most sixteen, as many as the root says, and the level is sound. Where nobody waits, placing
// looks at no record.

#![tactic(auto)]

ghost use Rattle.std.specs.Prelude.{◌≡◌, ◌<◌, ◌≤◌, length};
ghost use Rattle.waiting_row.specs.Entry.{place_of, stands_of};

use model::{Party, Root};
use waiting_row::{Looking, Place};

// The words before the first 0 are looked at, one after the other.
fn looked_through(root: &Root, parties: &[Party], row: &[u32], q: u32) -> Place
    requires { q < length parties.now }
    ensures { result ≡ stands_of root.now parties.now row.now q }
{
    let former = *root;
    let n = waiting_row::waiters(row);
    let gapless = waiting_row::gapless(row, n);
    let mut seen = Looking::started(former, parties[q as usize], gapless);
    for word in &row[..n] {
        seen = seen.looked(former, parties, q, *word);
    }
    seen.placed()
}

// Where party q stands.
pub fn standing(root: &Root, parties: &[Party], row: &[u32], q: u32) -> Place
    ensures { q < length parties.now → root.now.parties ≤ 16 → length parties.now ≡ root.now.parties → root.now.level ≤ 8 → result ≡ place_of root.now parties.now row.now q }
{
    if (q as usize) < parties.len() {
        looked_through(root, parties, row, q)
    } else {
        Place::ALONE
    }
}

// The same, quicker where nobody waits: only else are the slices' places in memory made, for a call out of line.
pub fn placing(root: &Root, parties: &[Party], row: &[u32], q: u32) -> Place
    ensures { q < length parties.now → root.now.parties ≤ 16 → length parties.now ≡ root.now.parties → root.now.level ≤ 8 → result ≡ place_of root.now parties.now row.now q }
{
    if waiting_row::somebody(row) {
        standing(root, &parties[..], &row[..], q)
    } else {
        Place::ALONE
    }
}
