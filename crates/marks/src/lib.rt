// What a step can have changed of the root and of its party's record, by its number and its answer: a mark.
// Main statement: marked is the definition mark_of; that a step changes no word that its mark does not name is
// proofs/Marks.antt.

#![tactic(auto)]

ghost use Rattle.std.specs.Prelude.{◌≡◌};
ghost use Rattle.marks.specs.Marks.{advances, mark_of};

use model::{Refusal, StepAnswer};

// What a step can have changed of the root and of its party's record.
#[derive(Clone, Copy, PartialEq, Eq)]
pub enum Mark {
    // The step number, or nothing.
    Advanced,
    // Step, lev, chain and other of the record.
    Located,
    // The record, which is zero then, and level, next, head and free of the root.
    Ended,
    // Step, chain, other, old, owed and answer of the record, and level, next, head and free of the root.
    Changed,
}

// Whether a step that moves changes the step number alone.
fn advances(k: u32) -> bool
    ensures { result ≡ advances k }
{
    matches!(
        k,
        1 | 4 | 5 | 7 | 8 | 11 | 12 | 13 | 15 | 18 | 19 | 23 | 25 | 28
    )
}

// The mark of a step with this number that answered so. The others of 1 to 9 locate.
pub fn marked(k: u32, answer: Result<StepAnswer, Refusal>) -> Mark
    ensures { result ≡ mark_of k answer }
{
    match answer {
        Ok(StepAnswer::Moved) => {
            if advances(k) {
                Mark::Advanced
            } else if k < 10 {
                Mark::Located
            } else {
                Mark::Changed
            }
        }
        Ok(StepAnswer::Done(_, _)) => Mark::Ended,
        Ok(StepAnswer::Waiting) | Err(_) => Mark::Advanced,
    }
}
