// What step 10 makes of a chain, whichever way it is done (document 01, "The thirty steps"): nothing, or a new chain
// beside the file, or damage.
// Main statements: owed_by is owed_by; kept_answer and changed_answer are the answers of an operation that changes
// nothing, and of one that does. after_change (specs/Changing.antt) says what each case leaves of the memory.
// Answers and what is owed stay numbers: they are the words of the party's record, of which the definitions speak.

#![tactic(auto)]

ghost use Rattle.std.specs.Prelude.{◌≡◌, List, length};
ghost use Rattle.model.specs.declared.Entry.{Entry};
ghost use Rattle.model.specs.Steps.Rebuild as Rebuild;
ghost use Rattle.chain_change.specs.Changing.{kept_answer, changed_answer};

use model::{ABSENT, DELETED, INSERT, INSERTED, OWES_MERGE, OWES_NONE, OWES_SPLIT, PRESENT};

// A new chain was written: the answer, the restructuring owed, how many pages were taken, and the free list's head
// then.
#[derive(Clone, Copy)]
pub struct Rebuilt {
    pub answer: u32,
    pub owed: u32,
    pub taken: u32,
    pub head: u32,
}

// What became of a chain without damage: nothing, with this answer; a new chain.
#[derive(Clone, Copy)]
pub enum Changed {
    Kept(u32),
    Written(Rebuilt),
}

// "Insert of a present key answers present, delete of a missing one absent".
#[tactic(auto, unfolding(crate::specs::Changing::kept_answer))]
pub fn kept_answer(operation: u32) -> u32
    ensures { result ≡ kept_answer operation }
{
    if operation == INSERT { PRESENT } else { ABSENT }
}

// Inserted or deleted.
#[tactic(auto, unfolding(crate::specs::Changing::changed_answer))]
pub fn changed_answer(operation: u32) -> u32
    ensures { result ≡ changed_answer operation }
{
    if operation == INSERT {
        INSERTED
    } else {
        DELETED
    }
}

// Restructure owed: "An insert whose new chain has more overflow pages than the old owes a split, a delete that
// emptied its chain a merge". `count` is the new chain's records.
#[tactic(auto, using(crate::proofs::Changes::split_owed_ok, crate::proofs::Changes::no_split_owed, crate::proofs::Changes::merge_owed_lem, crate::proofs::Changes::no_merge_owed))]
pub fn owed_by(operation: u32, before: u32, after: u32, count: u32) -> u32
    ensures { (es : List Entry) → length es ≡ count → result ≡ Rebuild.owed_by operation before after es }
{
    if operation == INSERT {
        if before < after {
            return OWES_SPLIT;
        }
        return OWES_NONE;
    }
    if count == 0 {
        return OWES_MERGE;
    }
    OWES_NONE
}
