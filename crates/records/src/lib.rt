// The root record and a party's record (document 01, "The lent memory"): as format and begin write them whole, as
// take-up looks at them, and as a call works on them.
// Main statements: Working has the copies that a call works on; root_of_sizes, begun, operation_number, setting_given
// and is_zero are the model's definitions of the same things.

#![tactic(auto)]

ghost use Rattle.std.specs.Prelude.{◌≡◌};
ghost use Rattle.model.specs.Records as Records;
ghost use Rattle.model.specs.Records.{root_sized};
ghost use Rattle.model.specs.Answers.{operation_number, setting_given};
ghost use Rattle.model.specs.TakeUp.{is_zero_record};

use model::{DELETE, FIND, FileSizes, INSERT, Operation, Party, Root};

// What a call works on beside the lock words and the page words: a copy of the root record and of the party's record,
// and the party's number.
// Lock words and page words stay slices beside it, document 01's form.
#[derive(Clone, Copy)]
pub struct Working {
    pub root: Root,
    pub party: Party,
    pub number: u32,
}

// A root record of these sizes, all else zero.
pub fn root_of_sizes(sizes: FileSizes) -> Root
    ensures { result ≡ root_sized sizes }
{
    Root {
        originals: sizes.originals,
        capacity: sizes.capacity,
        primaries: sizes.primaries,
        overflow: sizes.overflow,
        parties: sizes.parties,
        ..Root::default()
    }
}

// Whether a party's record is zero, every word of it.
pub fn is_zero(party: Party) -> bool
    ensures { result ≡ is_zero_record party }
{
    party == Party::default()
}

// The number of an operation in a party's record.
// No From: the number alone drops an insert's setting.
#[tactic(auto, unfolding(model::specs::Answers::operation_number))]
pub fn operation_number(operation: Operation) -> u32
    ensures { result ≡ operation_number operation }
{
    match operation {
        Operation::Find => FIND,
        Operation::Insert(_) => INSERT,
        Operation::Delete => DELETE,
    }
}

// The setting that an operation is given: an insert's, else 0.
#[tactic(auto, unfolding(model::specs::Answers::setting_given))]
pub fn setting_given(operation: Operation) -> u32
    ensures { result ≡ setting_given operation }
{
    match operation {
        Operation::Insert(setting) => setting,
        Operation::Find | Operation::Delete => 0,
    }
}

// "A begin sets operation, key and step 1 and zeroes the rest"; "The party's record gains the setting".
pub fn begun(operation: Operation, key: u32) -> Party
    ensures { result ≡ Records.begun (operation_number operation) key (setting_given operation) }
{
    Party {
        operation: operation_number(operation),
        key,
        step: 1,
        setting: setting_given(operation),
        ..Party::default()
    }
}
