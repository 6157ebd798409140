// The memory that a case lends.
// Main functions: sound (memory of given sizes, on which the call can be made), meeting (memory in which two given
// causes of refusal are met), about_to (a record before a step).

use model::{FileSizes, Party, Refusal, Root};
use std::fmt;

#[derive(Clone, Copy, PartialEq, Eq)]
pub enum Call {
    Format,
    Begin,
    Step,
    Withdraw,
    TakeUp,
}

impl fmt::Display for Call {
    fn fmt<W: fmt::Write>(&self, f: &mut fmt::Formatter<W>) -> fmt::Result {
        f.write_str(match self {
            Call::Format => "format",
            Call::Begin => "begin",
            Call::Step => "step",
            Call::Withdraw => "withdraw",
            Call::TakeUp => "take-up",
        })
    }
}

// What a call is lent, and for whom: the root record, whose sizes format is given, the first Q records of a row in
// which every record is this one, and so many words. Where the records rest, take-up is lent zero ones. `waits` are the
// first words of the waiting row, and the others are 0.
#[derive(Clone, Copy)]
pub struct Scene {
    pub root: Root,
    pub record: Party,
    pub lock_words: usize,
    pub page_words: usize,
    pub waiting_words: usize,
    pub waits: [u32; 3],
    pub party: u32,
    pub rests: bool,
}

// A root record of the sizes N, b, P, V and Q.
pub fn root_of(numbers: [u32; 5]) -> Root {
    let [originals, capacity, primaries, overflow, parties] = numbers;
    Root {
        originals,
        capacity,
        primaries,
        overflow,
        parties,
        ..Root::default()
    }
}

pub fn sizes_of(root: Root) -> FileSizes {
    FileSizes {
        originals: root.originals,
        capacity: root.capacity,
        primaries: root.primaries,
        overflow: root.overflow,
        parties: root.parties,
    }
}

// The first step, and one that is past the decisive step of a change.
const FIRST: u32 = 1;

const DECIDED: u32 = 12;

// A record about to make this step, with this answer so far; idle where the operation is 0.
pub fn about_to(operation: u32, step: u32, answer: u32) -> Party {
    Party {
        operation,
        key: 7,
        step,
        answer,
        setting: 5,
        ..Party::default()
    }
}

// The operation of a record with which its party can make the call.
fn operation_for(call: Call) -> u32 {
    match call {
        Call::Begin | Call::TakeUp => model::IDLE,
        Call::Format | Call::Step => model::FIND,
        Call::Withdraw => model::INSERT,
    }
}

// Memory of the lengths that these sizes ask for, on which every party can make the call.
pub fn sound(call: Call, root: Root, party: u32) -> Scene {
    let pages = root.primaries as usize + root.overflow as usize + root.parties as usize;
    Scene {
        root,
        record: about_to(operation_for(call), FIRST, model::NO_ANSWER),
        lock_words: root.primaries as usize + 1,
        page_words: model::PAGE_WORDS * pages,
        waiting_words: root.parties as usize,
        waits: [0; 3],
        party,
        rests: true,
    }
}

// The usual sizes: N 2, b 3, P 5, V 4, Q 3, so 6 lock words, 192 page words and 3 words of the waiting row.
pub const USUAL: [u32; 5] = [2, 3, 5, 4, 3];

// Two causes of refusal, or one, or none.
pub type Causes = [Option<Refusal>; 2];

fn meets(causes: Causes, cause: Refusal) -> bool {
    causes.contains(&Some(cause))
}

// Memory of the usual sizes in which these causes are met, and no other. Size: b is 7. Length: a lock word too few.
// Party: party Q. Busy and idle: every record is. Decided: every record is past a decisive step. Damage: the free count
// is above V. Unsaved: every record is idle, and none of them zero.
pub fn meeting(call: Call, causes: Causes) -> Scene {
    let mut s = sound(call, root_of(USUAL), 2);
    if meets(causes, Refusal::Size) {
        s.root.capacity = 7;
    }
    if meets(causes, Refusal::Length) {
        s.lock_words = 5;
    }
    if meets(causes, Refusal::Party) {
        s.party = 3;
    }
    if meets(causes, Refusal::Busy) {
        s.record.operation = model::INSERT;
    }
    if meets(causes, Refusal::Idle) {
        s.record.operation = model::IDLE;
    }
    if meets(causes, Refusal::Decided) {
        s.record.step = DECIDED;
        s.record.answer = model::INSERTED;
    }
    if meets(causes, Refusal::Damage) {
        s.root.free = 5;
    }
    if meets(causes, Refusal::Unsaved) {
        s.rests = false;
    }
    s
}
