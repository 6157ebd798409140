// The public calls for Rust and C: the calls of `index`, with numbers for what they are given and answer, since no
// enum crosses. A lent record goes in as a pointer to a #[repr(C)] struct of words, nine for the root and ten for a
// party, a slice as a pointer and a length.
// Main statements: bead_format, bead_begin, bead_step, bead_withdraw and bead_take_up answer the numbers of what the
// model's calls answer, and leave in every lent word what those leave, for all words, numbers and lengths. What a
// caller has of a run of them: specs/TheCalls.antt.

#![tactic(auto)]

ghost use Rattle.std.specs.Prelude.{◌≡◌};
ghost use Rattle.model.specs.Answers.{answer_number, setting_found, restructuring_number};
ghost use Rattle.calls.specs.Lent.{lent};
ghost use Rattle.bead.specs.Numbers.{sizes_of, operation_named, reply_of};
ghost use Rattle.bead.specs.TheCalls.{BeadFormatted, BeadBegun, BeadStepped, BeadWithdrew, BeadLooked};

use model::{
    ABSENT, DELETE, DELETED, FIND, FileSizes, INSERT, INSERTED, NO_PAGE, Operation,
    OperationAnswer, PRESENT, Party, Refusal, Restructuring, Root, StepAnswer,
};

// What bead_begin answers to a number that is no operation's.
pub const NO_OPERATION: u32 = 255;

// Outcomes of a step that is not refused.
pub const WAITING: u32 = 0;

pub const MOVED: u32 = 1;

pub const DONE: u32 = 2;

// The answer found has no number in a party's record; here it is numbered after those that have.
pub const FOUND: u32 = 6;

// The reply to a step: the number of its refusal, or 0; its outcome; where it is done, the numbers of the answer and
// of the restructuring, and the setting of an answer found. What does not apply is 0.
#[repr(C)]
#[derive(Clone, Copy, Default)]
pub struct BeadReply {
    pub refusal: u32,
    pub outcome: u32,
    pub answer: u32,
    pub restructuring: u32,
    pub setting: u32,
}

// The number of an answer.
// No From: both types are other crates', and these numbers are C's alone (so below).
#[tactic(auto, unfolding(model::specs::Answers::answer_number))]
fn answer_number(answer: OperationAnswer) -> u32
    ensures { result ≡ answer_number answer }
{
    match answer {
        OperationAnswer::Found(_) => FOUND,
        OperationAnswer::Absent => ABSENT,
        OperationAnswer::Inserted => INSERTED,
        OperationAnswer::Present => PRESENT,
        OperationAnswer::Deleted => DELETED,
        OperationAnswer::NoPage => NO_PAGE,
    }
}

// The setting that an answer carries: found's, else 0.
#[tactic(auto, unfolding(model::specs::Answers::setting_found))]
fn setting_found(answer: OperationAnswer) -> u32
    ensures { result ≡ setting_found answer }
{
    match answer {
        OperationAnswer::Found(setting) => setting,
        _ => 0,
    }
}

// The number of a restructuring.
#[tactic(auto, unfolding(model::specs::Answers::restructuring_number))]
fn restructuring_number(made: Restructuring) -> u32
    ensures { result ≡ restructuring_number made }
{
    match made {
        Restructuring::None => 0,
        Restructuring::Split => 1,
        Restructuring::SplitSkipped => 2,
        Restructuring::Merged => 3,
        Restructuring::MergeSkipped => 4,
    }
}

impl From<Result<StepAnswer, Refusal>> for BeadReply {
    ghost from_gives = { λ a r. r ≡ reply_of a };

    #[tactic(auto, unfolding(crate::specs::Numbers::reply_of))]
    fn from(answer: Result<StepAnswer, Refusal>) -> BeadReply {
        match answer {
            Ok(StepAnswer::Waiting) => BeadReply {
                outcome: WAITING,
                ..BeadReply::default()
            },
            Ok(StepAnswer::Moved) => BeadReply {
                outcome: MOVED,
                ..BeadReply::default()
            },
            Ok(StepAnswer::Done(answer, made)) => BeadReply {
                refusal: 0,
                outcome: DONE,
                answer: answer_number(answer),
                restructuring: restructuring_number(made),
                setting: setting_found(answer),
            },
            Err(refusal) => BeadReply {
                refusal: refusal.into(),
                ..BeadReply::default()
            },
        }
    }
}

// The sizes N b P V Q as one struct.
fn sizes_of(n: u32, b: u32, p: u32, v: u32, q: u32) -> FileSizes
    ensures { result ≡ sizes_of n b p v q }
{
    FileSizes {
        originals: n,
        capacity: b,
        primaries: p,
        overflow: v,
        parties: q,
    }
}

// The operation of a number, an insert's with its setting; none for a number that is no operation's.
#[tactic(auto, unfolding(crate::specs::Numbers::operation_of, crate::specs::Numbers::is_operation))]
fn operation_of(number: u32, setting: u32) -> Option<Operation>
    ensures { result ≡ operation_named number setting }
{
    match number {
        FIND => Some(Operation::Find),
        INSERT => Some(Operation::Insert(setting)),
        DELETE => Some(Operation::Delete),
        _ => None,
    }
}

// Format with the sizes N b P V Q: 0, or the number of the refusal.
#[unsafe(no_mangle)]
pub extern "C" fn bead_format(
    root: &mut Root,
    parties: &mut [Party],
    locks: &mut [u32],
    pages: &mut [u32],
    waiting: &mut [u32],
    n: u32,
    b: u32,
    p: u32,
    v: u32,
    q: u32,
) -> u32
    ensures { BeadFormatted (lent root.old parties.old locks.old pages.old waiting.old) n b p v q result (lent root.new parties.new locks.new pages.new waiting.new) }
{
    let sizes = sizes_of(n, b, p, v, q);
    index::refusal_number(index::format(root, parties, locks, pages, waiting, sizes))
}

// Begin operation 1 (find), 2 (insert, with a setting) or 3 (delete) for a party: 0, or the number of the refusal;
// for any other number 255, and nothing is altered.
#[unsafe(no_mangle)]
pub extern "C" fn bead_begin(
    root: &Root,
    parties: &mut [Party],
    locks: &[u32],
    pages: &[u32],
    waiting: &[u32],
    q: u32,
    operation: u32,
    key: u32,
    setting: u32,
) -> u32
    ensures { BeadBegun (lent root.now parties.old locks.now pages.now waiting.now) q operation key setting result (lent root.now parties.new locks.now pages.now waiting.now) }
{
    let Some(named) = operation_of(operation, setting) else {
        return NO_OPERATION;
    };
    index::refusal_number(index::begin(root, parties, locks, pages, waiting, q, named, key))
}

// One step for a party.
#[unsafe(no_mangle)]
pub extern "C" fn bead_step(
    root: &mut Root,
    parties: &mut [Party],
    locks: &mut [u32],
    pages: &mut [u32],
    waiting: &mut [u32],
    q: u32,
) -> BeadReply
    ensures { BeadStepped (lent root.old parties.old locks.old pages.old waiting.old) q result (lent root.new parties.new locks.new pages.new waiting.new) }
{
    index::step(root, parties, locks, pages, waiting, q).into()
}

// Withdraw for a party: 0, or the number of the refusal.
#[unsafe(no_mangle)]
pub extern "C" fn bead_withdraw(
    root: &mut Root,
    parties: &mut [Party],
    locks: &mut [u32],
    pages: &mut [u32],
    waiting: &mut [u32],
    q: u32,
) -> u32
    ensures { BeadWithdrew (lent root.old parties.old locks.old pages.old waiting.old) q result (lent root.new parties.new locks.new pages.new waiting.new) }
{
    index::refusal_number(index::withdraw(root, parties, locks, pages, waiting, q))
}

// Take up a saved file: the number of the refusal, or 0.
#[unsafe(no_mangle)]
pub extern "C" fn bead_take_up(
    root: &Root,
    parties: &[Party],
    locks: &[u32],
    pages: &[u32],
    waiting: &[u32],
) -> u32
    ensures { BeadLooked (lent root.now parties.now locks.now pages.now waiting.now) result (lent root.now parties.now locks.now pages.now waiting.now) }
{
    index::refusal_number(index::take_up(root, parties, locks, pages, waiting))
}
