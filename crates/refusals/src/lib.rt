// The tests that every call makes before it changes a word (document 01, "Refused calls"), over the root record and
// one party's record by value.
// Main statements: within_limits, lengths_fit, root_sound, party_sound, has_step and is_decided are the model's tests,
// for every word; format_cause, begin_cause, step_cause, withdraw_cause and take_up_cause refuse by the first cause in
// the table's order. proofs/Accepted.antt: what holds once there is none.

#![tactic(auto)]

ghost use Rattle.std.specs.Prelude.{◌≡◌, true, ◌^◌, ◌≤◌, ◌<◌};
ghost use Rattle.model.specs.Sizes.{within, within_limits};
ghost use Rattle.model.specs.Addresses as Addresses;
ghost use Rattle.model.specs.Records.{root_sized};
ghost use Rattle.model.specs.Refusals.{root_sound, party_sound};
ghost use Rattle.model.specs.Steps.Dispatch.{has_step};
ghost use Rattle.model.specs.Withdraw.{is_decided};
ghost use Rattle.refusals.specs.Causes.{lengths_are, format_cause, place_cause, begin_cause, step_cause, withdraw_cause, take_up_cause};

use model::{
    DELETE, FIND, FileSizes, IDLE, INSERT, MOST_OVERFLOW, MOST_PARTIES, MOST_PRIMARIES,
    MOST_RECORDS, NO_ANSWER, PAGE_WORDS, Party, Refusal, Root,
};

// How much is lent: records, lock words, page words and words of the waiting row.
#[derive(Clone, Copy, PartialEq, Eq)]
pub struct Lengths {
    pub parties: usize,
    pub locks: usize,
    pub pages: usize,
    pub waiting: usize,
}

// Whether a number is one of these two or between them.
fn within(least: u32, most: u32, n: u32) -> bool
    ensures { result ≡ within least most n }
{
    (least..=most).contains(&n)
}

// "N original chains, 1 to P. P chains at most, 1 to 256. V overflow pages, 0 to 752. Q parties, 1 to 16." "b is 1 to
// 6". Here and below tests are joined by &, since nearly every call passes them all.
pub fn within_limits(root: Root) -> bool
    ensures { result ≡ within_limits root }
{
    within(1, root.primaries, root.originals)
        & within(1, MOST_PRIMARIES, root.primaries)
        & (root.overflow <= MOST_OVERFLOW)
        & within(1, MOST_PARTIES, root.parties)
        & within(1, MOST_RECORDS, root.capacity)
}

// "Q records, P+1 lock words or 16 × (P+V+Q) page words"; document 02, change 7: a waiting row of Q words.
pub fn lengths_fit(root: Root, lengths: Lengths) -> bool
    ensures { result ≡ lengths_are root lengths }
{
    let p = root.primaries as usize;
    let v = root.overflow as usize;
    let q = root.parties as usize;
    (lengths.parties == q)
        & (lengths.locks == p + 1)
        & (lengths.pages == PAGE_WORDS * (p + v + q))
        & (lengths.waiting == q)
}

// N × 2^level.
// Of any number, and so wider than addresses::span, which is asked of sizes within their limits.
pub fn span(n: u32, level: u32) -> u64
    requires { level ≤ 8 }
    ensures { (result ≡ Addresses.span n level) × (result < 2 ^ 40) }
{
    u64::from(n) << level
}

// "level above 8, next not below N × 2^level, n above P, or free count above V" is damage.
pub fn root_sound(root: Root) -> bool
    ensures { result ≡ root_sound root }
{
    if 8 < root.level {
        return false;
    }
    let size = span(root.originals, root.level);
    let next = u64::from(root.next);
    (next < size) & (size + next <= u64::from(root.primaries)) & (root.free <= root.overflow)
}

// "find has 1 to 9, insert 1 to 8 and 10 to 22, delete 1 to 8, 10 to 14 and 23 to 30".
pub fn has_step(operation: u32, step: u32) -> bool
    ensures { result ≡ has_step operation step }
{
    match step {
        1..=8 => (operation == FIND) | (operation == INSERT) | (operation == DELETE),
        9 => operation == FIND,
        10..=14 => (operation == INSERT) | (operation == DELETE),
        15..=22 => operation == INSERT,
        23..=30 => operation == DELETE,
        _ => false,
    }
}

// "operation above 3; a step the operation lacks; lev above 9; owed above 3; an answer above 5, or 0 from step 12 on;
// a chain or other chain at or above P" is damage.
// An operation above 3 has no step. Only from step 12 on is there an answer to ask for.
#[tactic(auto, using(crate::proofs::Sound::decides_early, crate::proofs::Sound::decides_answered), unfolding(model::specs::Refusals::party_sound))]
pub fn party_sound(root: Root, party: Party) -> bool
    ensures { result ≡ party_sound root party }
{
    party.lev <= 9
        && party.answer <= 5
        && party.owed <= 3
        && party.chain < root.primaries
        && party.other < root.primaries
        && (party.step < 12 || party.answer != NO_ANSWER)
        && has_step(party.operation, party.step)
}

// The rows that every call has: sizes, then lengths.
#[tactic(auto, unfolding(crate::specs::Causes::format_cause, model::specs::Refusals::first_cause))]
fn file_cause(root: Root, lengths: Lengths) -> Result<(), Refusal>
    ensures { result ≡ format_cause root lengths }
{
    if !within_limits(root) {
        return Err(Refusal::Size);
    }
    if !lengths_fit(root, lengths) {
        return Err(Refusal::Length);
    }
    Ok(())
}

// Format with these sizes: the root record that stood there is not read.
pub fn format_cause(sizes: FileSizes, lengths: Lengths) -> Result<(), Refusal>
    ensures { result ≡ format_cause (root_sized sizes) lengths }
{
    file_cause(records::root_of_sizes(sizes), lengths)
}

// The rows that begin, step and withdraw share, for party q: no party's record is looked at.
#[tactic(auto, using(crate::proofs::Causes::place_is))]
pub fn place_cause(root: Root, lengths: Lengths, q: u32) -> Result<(), Refusal>
    ensures { result ≡ place_cause root lengths q }
{
    file_cause(root, lengths)?;
    if root.parties <= q {
        return Err(Refusal::Party);
    }
    Ok(())
}

// Begin for party q, whose record is `party`.
#[tactic(auto, using(crate::proofs::Causes::begin_is))]
pub fn begin_cause(root: Root, party: Party, lengths: Lengths, q: u32) -> Result<(), Refusal>
    ensures { result ≡ begin_cause root party lengths q }
{
    place_cause(root, lengths, q)?;
    if party.operation != IDLE {
        return Err(Refusal::Busy);
    }
    Ok(())
}

// Step for party q, whose record is `party`, over a waiting row that is sound: the row's own test is the last, and is
// the caller's. The tests of damage that go by the step number are the step's own.
#[tactic(auto, using(crate::proofs::Causes::step_is), unfolding(model::specs::Refusals::first_cause, model::specs::Refusals::record_sound))]
pub fn step_cause(root: Root, party: Party, lengths: Lengths, q: u32) -> Result<(), Refusal>
    ensures { result ≡ step_cause root party lengths q true }
{
    place_cause(root, lengths, q)?;
    if party.operation == IDLE {
        return Err(Refusal::Idle);
    }
    if !root_sound(root) || !party_sound(root, party) {
        return Err(Refusal::Damage);
    }
    Ok(())
}

// "7 when the decisive step has been taken (a find at 9, a change at 12 or later)": by operation and step number
// alone.
pub fn is_decided(party: Party) -> bool
    ensures { result ≡ is_decided party }
{
    let find = party.operation == FIND;
    let change = (party.operation == INSERT) | (party.operation == DELETE);
    (find & (party.step == 9)) | (change & (12 <= party.step))
}

// Withdraw for party q, whose record is `party`, with a waiting row that is `sound` or not: 7 is "tested after 5 (the
// party is idle) and before 6".
#[tactic(auto, using(crate::proofs::Causes::withdraw_is), unfolding(model::specs::Refusals::first_cause, model::specs::Refusals::record_sound))]
pub fn withdraw_cause(
    root: Root,
    party: Party,
    lengths: Lengths,
    q: u32,
    sound: bool,
) -> Result<(), Refusal>
    ensures { result ≡ withdraw_cause root party lengths q sound }
{
    place_cause(root, lengths, q)?;
    if party.operation == IDLE {
        return Err(Refusal::Idle);
    }
    if is_decided(party) {
        return Err(Refusal::Decided);
    }
    if !root_sound(root) || !party_sound(root, party) || !sound {
        return Err(Refusal::Damage);
    }
    Ok(())
}

// Take-up, by whether the file is saved: 8 is "tested after 2 and 1".
#[tactic(auto, using(crate::proofs::Causes::take_up_is), unfolding(model::specs::Refusals::first_cause))]
pub fn take_up_cause(root: Root, saved: bool, lengths: Lengths) -> Result<(), Refusal>
    ensures { result ≡ take_up_cause root saved lengths }
{
    file_cause(root, lengths)?;
    if !saved {
        return Err(Refusal::Unsaved);
    }
    Ok(())
}
