// Of the root and of a party's record in the row, both lent, the words stored that a step can have changed, by its
// mark.
// Main statements: put_root and put_party leave root_by and party_by of crate `marks`, at any place of a row of any
// length.

#![tactic(auto)]

ghost use Rattle.std.specs.Prelude.{◌≡◌, set};
ghost use Rattle.model.specs.Memory.{party_at};
ghost use Rattle.marks.specs.Marks.{root_by, party_by};

use marks::Mark;
use model::{Party, Root};

// The words that a step with this mark can have changed of the root are stored, as `r` has them.
pub fn put_root(root: &mut Root, r: Root, mark: Mark)
    ensures { root.new ≡ root_by mark root.old r }
{
    match mark {
        Mark::Advanced | Mark::Located => {}
        Mark::Ended | Mark::Changed => {
            root.level = r.level;
            root.next = r.next;
            root.head = r.head;
            root.free = r.free;
        }
    }
}

// Those of the record at `at` are stored, as `p` has them.
pub fn put_party(parties: &mut [Party], at: usize, p: Party, mark: Mark)
    ensures { parties.new ≡ set parties.old at (party_by mark (party_at parties.old at) p) }
{
    if at < parties.len() {
        let party = &mut parties[at];
        match mark {
            Mark::Advanced => party.step = p.step,
            Mark::Located => {
                party.step = p.step;
                party.lev = p.lev;
                party.chain = p.chain;
                party.other = p.other;
            }
            Mark::Ended => *party = Party::default(),
            Mark::Changed => {
                party.step = p.step;
                party.chain = p.chain;
                party.other = p.other;
                party.old = p.old;
                party.owed = p.owed;
                party.answer = p.answer;
            }
        }
    }
}
