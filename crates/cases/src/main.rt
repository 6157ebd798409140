// The cases of document 01 that are run only ("Checked by hand"), and refusals in the order of its table ("Refused
// calls"), compared with what the document says.
// A line a case: the call and the numbers that make the case, what came, and `as it should be` or `WRONG`; last a
// count. The file stdout has what must be written.
// Files: this one has the cases, a table each; scene.rt the memory of a case, made.rt the calls and the comparison of
// memory, told.rt what is written.

#![tactic(auto)]

mod made;
mod scene;
mod told;

use crate::scene::{Call, Causes, USUAL, about_to, meeting, root_of, sound};
use crate::told::{Tally, judged};
use model::Refusal;
use model::Refusal::{Busy, Damage, Decided, Idle, Length, Party, Size, Unsaved};

// What a call is to answer.
type Expected = Result<(), Refusal>;

// ---- Sizes and parties

// N, b, P, V, Q and the party: the sizes are those given to format, else the root record's.
fn sized(rt: &impl Print, t: &mut Tally, call: Call, cases: &[([u32; 6], Expected)]) {
    for (numbers, expected) in cases {
        let [n, b, p, v, q, party] = *numbers;
        let s = sound(call, root_of([n, b, p, v, q]), party);
        judged(rt, t, call, "N b P V Q and party", numbers, s, *expected);
    }
}

// "Run only: P 256 accepted, 257 refused 2"; and the least and the largest sizes.
const SIZES_WITHIN: [([u32; 6], Expected); 4] = [
    ([1, 6, 256, 752, 16, 0], Ok(())),
    ([1, 6, 257, 752, 16, 0], Err(Size)),
    ([256, 6, 256, 752, 16, 0], Ok(())),
    ([1, 1, 1, 0, 1, 0], Ok(())),
];

// "N original chains, 1 to P. P chains at most, 1 to 256. V overflow pages, 0 to 752. Q parties, 1 to 16." With
// settings "b is 1 to 6".
// With Q 0 party 0 is outside the row too, and with Q 17 one record too few is lent.
const SIZES_OUTSIDE: [([u32; 6], Expected); 9] = [
    ([0, 3, 5, 4, 3, 0], Err(Size)),
    ([6, 3, 5, 4, 3, 0], Err(Size)),
    ([2, 0, 5, 4, 3, 0], Err(Size)),
    ([2, 7, 5, 4, 3, 0], Err(Size)),
    ([2, 12, 5, 4, 3, 0], Err(Size)),
    ([0, 3, 0, 4, 3, 0], Err(Size)),
    ([2, 3, 5, 753, 3, 0], Err(Size)),
    ([2, 3, 5, 4, 0, 0], Err(Size)),
    ([2, 3, 5, 4, 17, 0], Err(Size)),
];

// "Run only: party Q−1 accepted, Q refused 3".
const PARTIES: [([u32; 6], Expected); 6] = [
    ([2, 3, 5, 4, 3, 2], Ok(())),
    ([2, 3, 5, 4, 3, 3], Err(Party)),
    ([2, 3, 5, 4, 16, 15], Ok(())),
    ([2, 3, 5, 4, 16, 16], Err(Party)),
    ([2, 3, 5, 4, 1, 0], Ok(())),
    ([2, 3, 5, 4, 1, 4294967295], Err(Party)),
];

// ---- Lengths

// So many lock words, page words and words of the waiting row lent, with the usual sizes.
fn lent(rt: &impl Print, t: &mut Tally, call: Call, cases: &[([u32; 3], Expected)]) {
    for (numbers, expected) in cases {
        let mut s = sound(call, root_of(USUAL), 0);
        s.lock_words = numbers[0] as usize;
        s.page_words = numbers[1] as usize;
        s.waiting_words = numbers[2] as usize;
        judged(
            rt,
            t,
            call,
            "lock words, page words and waiting words",
            numbers,
            s,
            *expected,
        );
    }
}

// "a lent length other than Q records, P+1 lock words or 16 × (P+V+Q) page words"; and other than Q words of the
// waiting row (change 7). Q records are lent, where there may be so many.
const LENGTHS: [([u32; 3], Expected); 8] = [
    ([6, 192, 3], Ok(())),
    ([5, 192, 3], Err(Length)),
    ([7, 192, 3], Err(Length)),
    ([6, 191, 3], Err(Length)),
    ([6, 193, 3], Err(Length)),
    ([6, 192, 2], Err(Length)),
    ([6, 192, 4], Err(Length)),
    ([6, 192, 0], Err(Length)),
];

// ---- The causes: each alone, and every two that can meet

fn number(cause: Option<Refusal>) -> u32 {
    cause.map_or(0, u32::from)
}

// These causes are met and no other.
fn met(rt: &impl Print, t: &mut Tally, call: Call, cases: &[(Causes, Expected)]) {
    for (causes, expected) in cases {
        let numbers = [number(causes[0]), number(causes[1])];
        let s = meeting(call, *causes);
        judged(rt, t, call, "causes", &numbers, s, *expected);
    }
}

// Format has these alone.
const CAUSES_OF_ALL: [(Causes, Expected); 3] = [
    ([Some(Size), None], Err(Size)),
    ([Some(Length), None], Err(Length)),
    ([Some(Size), Some(Length)], Err(Size)),
];

// Begin, step and withdraw.
const CAUSES_OF_PARTIES: [(Causes, Expected); 3] = [
    ([Some(Party), None], Err(Party)),
    ([Some(Size), Some(Party)], Err(Size)),
    ([Some(Length), Some(Party)], Err(Length)),
];

// Begin alone has busy, and has neither idle nor damage. Party and busy do not meet: party Q has no record. In the last
// case there is a busy record where it would be, past the records lent, and it is not looked at.
const CAUSES_OF_BEGIN: [(Causes, Expected); 6] = [
    ([Some(Busy), None], Err(Busy)),
    ([Some(Idle), None], Ok(())),
    ([Some(Damage), None], Ok(())),
    ([Some(Size), Some(Busy)], Err(Size)),
    ([Some(Length), Some(Busy)], Err(Length)),
    ([Some(Party), Some(Busy)], Err(Party)),
];

// Step alone has idle and damage, and has not busy. Party meets damage in the root record. Party and idle do not meet,
// as party and busy at begin, and the last case shows it likewise.
const CAUSES_OF_STEP: [(Causes, Expected); 10] = [
    ([Some(Busy), None], Ok(())),
    ([Some(Idle), None], Err(Idle)),
    ([Some(Damage), None], Err(Damage)),
    ([Some(Size), Some(Idle)], Err(Size)),
    ([Some(Size), Some(Damage)], Err(Size)),
    ([Some(Length), Some(Idle)], Err(Length)),
    ([Some(Length), Some(Damage)], Err(Length)),
    ([Some(Party), Some(Damage)], Err(Party)),
    ([Some(Idle), Some(Damage)], Err(Idle)),
    ([Some(Party), Some(Idle)], Err(Party)),
];

// Withdraw has idle, decided and damage, "tested after 5 (the party is idle) and before 6", and has not busy; then with
// those of every call. Party does not meet idle or decided: the records past those lent are not looked at.
const CAUSES_OF_WITHDRAW: [(Causes, Expected); 16] = [
    ([Some(Busy), None], Ok(())),
    ([Some(Idle), None], Err(Idle)),
    ([Some(Decided), None], Err(Decided)),
    ([Some(Damage), None], Err(Damage)),
    ([Some(Idle), Some(Decided)], Err(Idle)),
    ([Some(Idle), Some(Damage)], Err(Idle)),
    ([Some(Decided), Some(Damage)], Err(Decided)),
    ([Some(Size), Some(Idle)], Err(Size)),
    ([Some(Size), Some(Decided)], Err(Size)),
    ([Some(Size), Some(Damage)], Err(Size)),
    ([Some(Length), Some(Idle)], Err(Length)),
    ([Some(Length), Some(Decided)], Err(Length)),
    ([Some(Length), Some(Damage)], Err(Length)),
    ([Some(Party), Some(Idle)], Err(Party)),
    ([Some(Party), Some(Decided)], Err(Party)),
    ([Some(Party), Some(Damage)], Err(Party)),
];

// Take-up has unsaved, "tested after 2 and 1"; without a cause a file at rest is taken up.
const CAUSES_OF_TAKE_UP: [(Causes, Expected); 4] = [
    ([None, None], Ok(())),
    ([Some(Unsaved), None], Err(Unsaved)),
    ([Some(Size), Some(Unsaved)], Err(Size)),
    ([Some(Length), Some(Unsaved)], Err(Length)),
];

// ---- The waiting row (change 7)

// The three words of the row, and a cause that is met beside.
fn lined(
    rt: &impl Print,
    t: &mut Tally,
    call: Call,
    cases: &[([u32; 3], Option<Refusal>, Expected)],
) {
    for (waits, cause, expected) in cases {
        let [first, second, third] = *waits;
        let mut s = meeting(call, [*cause, None]);
        s.waits = [first, second, third];
        let numbers = [first, second, third, number(*cause)];
        judged(rt, t, call, "waiting row and cause", &numbers, s, *expected);
    }
}

// Party 2 calls. Sound rows, without it and with it; then "a word above Q, a repeat, a gap".
const ROWS_TOLD: [([u32; 3], Option<Refusal>, Expected); 8] = [
    ([1, 2, 0], None, Ok(())),
    ([1, 3, 2], None, Ok(())),
    ([4, 0, 0], None, Err(Damage)),
    ([1, 4294967295, 0], None, Err(Damage)),
    ([1, 1, 0], None, Err(Damage)),
    ([3, 1, 3], None, Err(Damage)),
    ([0, 1, 0], None, Err(Damage)),
    ([1, 0, 2], None, Err(Damage)),
];

// The row is the last that is tested.
const BEFORE_THE_ROW: [([u32; 3], Option<Refusal>, Expected); 4] = [
    ([4, 0, 0], Some(Size), Err(Size)),
    ([4, 0, 0], Some(Length), Err(Length)),
    ([4, 0, 0], Some(Party), Err(Party)),
    ([4, 0, 0], Some(Idle), Err(Idle)),
];

const DECIDED_BEFORE_THE_ROW: [([u32; 3], Option<Refusal>, Expected); 1] = [(
    [4, 0, 0],
    Some(Decided),
    Err(Decided),
)];

// Format zeroes the row, and begin leaves it; neither tests it for damage.
const ROWS_UNTOLD: [([u32; 3], Option<Refusal>, Expected); 1] = [([4, 1, 1], None, Ok(()))];

// Take-up wants it zero.
const ROWS_SAVED: [([u32; 3], Option<Refusal>, Expected); 4] = [
    ([1, 0, 0], None, Err(Unsaved)),
    ([0, 0, 4], None, Err(Unsaved)),
    ([1, 0, 0], Some(Size), Err(Size)),
    ([1, 0, 0], Some(Length), Err(Length)),
];

// Party 2 steps, and every record is about to make this step of this operation; then the words of the waiting row.
fn requests(rt: &impl Print, t: &mut Tally, cases: &[([u32; 5], Expected)]) {
    for (numbers, expected) in cases {
        let [operation, step, first, second, third] = *numbers;
        let mut s = meeting(Call::Step, [None, None]);
        s.record = about_to(operation, step, model::NO_ANSWER);
        s.waits = [first, second, third];
        judged(
            rt,
            t,
            Call::Step,
            "operation, step and waiting row",
            numbers,
            s,
            *expected,
        );
    }
}

// "a party whose next step requests no lock": 2 requests none. 4 requests the chain: read for a find, which passes one
// that waits; selective otherwise, and then the party joins behind it, or leaves the row as the first.
const REQUESTS: [([u32; 5], Expected); 6] = [
    ([model::FIND, 2, 0, 0, 0], Ok(())),
    ([model::FIND, 2, 1, 0, 0], Err(Damage)),
    ([model::FIND, 2, 3, 0, 0], Err(Damage)),
    ([model::FIND, 4, 1, 0, 0], Ok(())),
    ([model::INSERT, 4, 1, 0, 0], Ok(())),
    ([model::INSERT, 4, 3, 1, 0], Ok(())),
];

// ---- All of it

const ALL: [Call; 5] = [
    Call::Format,
    Call::Begin,
    Call::Step,
    Call::Withdraw,
    Call::TakeUp,
];

// The calls that a party makes, and those of them that look at who waits.
const BY_PARTIES: [Call; 3] = [Call::Begin, Call::Step, Call::Withdraw];

const IN_THE_ROW: [Call; 2] = [Call::Step, Call::Withdraw];

fn main(rt: HostRuntime) {
    let mut t = Tally { cases: 0, wrong: 0 };
    for call in ALL {
        sized(&rt, &mut t, call, &SIZES_WITHIN);
        sized(&rt, &mut t, call, &SIZES_OUTSIDE);
        lent(&rt, &mut t, call, &LENGTHS);
        met(&rt, &mut t, call, &CAUSES_OF_ALL);
    }
    for call in BY_PARTIES {
        sized(&rt, &mut t, call, &PARTIES);
    }
    for call in BY_PARTIES {
        met(&rt, &mut t, call, &CAUSES_OF_PARTIES);
    }
    met(&rt, &mut t, Call::Begin, &CAUSES_OF_BEGIN);
    met(&rt, &mut t, Call::Step, &CAUSES_OF_STEP);
    met(&rt, &mut t, Call::Withdraw, &CAUSES_OF_WITHDRAW);
    met(&rt, &mut t, Call::TakeUp, &CAUSES_OF_TAKE_UP);
    for call in IN_THE_ROW {
        lined(&rt, &mut t, call, &ROWS_TOLD);
    }
    for call in IN_THE_ROW {
        lined(&rt, &mut t, call, &BEFORE_THE_ROW);
    }
    lined(&rt, &mut t, Call::Withdraw, &DECIDED_BEFORE_THE_ROW);
    requests(&rt, &mut t, &REQUESTS);
    lined(&rt, &mut t, Call::Format, &ROWS_UNTOLD);
    lined(&rt, &mut t, Call::Begin, &ROWS_UNTOLD);
    lined(&rt, &mut t, Call::TakeUp, &ROWS_SAVED);
    let _ = println!(&rt; "{} cases, {} wrong", t.cases, t.wrong);
}
