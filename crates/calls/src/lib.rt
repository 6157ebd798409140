// The five calls over values (document 01, "What it covers" and "Refused calls"; document 02, changes 2, 6 and 7): the
// root and one party's record by value, where the party stands in the waiting row, the lock words and the page words
// lent.
// The refusal table's tests are made here, in its order; damage that only one step can meet is refused by that step.
// A step whose party stands behind another is not run: held_back answers for it.
// There is nothing that a caller must see to: the contracts hold for all words and all lengths.
// Main statements: format and begin leave what the model's format_call and begin_call leave, whatever the other
// parties' records and the waiting row are; step and withdraw what step_call and withdraw_call leave, for every row
// of records and every waiting row in which the party has the place given, where there is one; past is the refusal of
// begin_call, step_call and withdraw_call past the row's end; take_up answers as take_up_call does, for every row of
// records and every waiting row that are zero or not as its caller says.

#![tactic(auto)]

ghost use Rattle.std.specs.Prelude.{◌≡◌, ◌&&◌, List, ℕ, ◌<◌, ◌≤◌, length, Err};
ghost use Rattle.model.specs.declared.Party.{Party};
ghost use Rattle.model.specs.declared.Root.{Root};
ghost use Rattle.model.specs.declared.Operation.{Operation};
ghost use Rattle.model.specs.Memory.{party_at};
ghost use Rattle.model.specs.WaitingRow.{all_zero};
ghost use Rattle.model.specs.TakeUp.{all_idle, take_up_call};
ghost use Rattle.model.specs.Calls.{called, format_call, begin_call, step_call, withdraw_call};
ghost use Rattle.refusals.specs.Causes.{lengths_of, lengths_lent};
ghost use Rattle.waiting_row.specs.HeldBack.{held_answer};
ghost use Rattle.calls.specs.Lent.{lent, rows_of, PlaceRight, left_by_format, left_by_begin, left_by_step, left_in_place, left_by_withdraw};

use model::{FileSizes, Operation, Party, Refusal, Root, StepAnswer, Stepped};
use records::Working;
use refusals::Lengths;
use waiting_row::Place;

// How long the two rows are that the calls are not lent: the records, and the words of the waiting row.
#[derive(Clone, Copy)]
pub struct Rows {
    pub parties: usize,
    pub waiting: usize,
}

impl Rows {
    // Of these two.
    pub fn of(parties: &[Party], waiting: &[u32]) -> Rows
        ensures { result ≡ rows_of parties.now waiting.now }
    {
        Rows {
            parties: parties.len(),
            waiting: waiting.len(),
        }
    }

    // With the words that are lent.
    pub fn lengths(self, locks: &[u32], pages: &[u32]) -> Lengths
        ensures { result ≡ lengths_lent self.parties locks.now pages.now self.waiting }
    {
        Lengths {
            parties: self.parties,
            locks: locks.len(),
            pages: pages.len(),
            waiting: self.waiting,
        }
    }
}

// Format with these sizes: the root record that is made. Every party's record is then to be the zero record, and every
// word of the waiting row 0; where it is refused nothing is altered.
pub fn format(
    sizes: FileSizes,
    rows: Rows,
    locks: &mut [u32],
    pages: &mut [u32],
) -> Result<Root, Refusal>
    ensures { (root : Root) (row : List Party) (ws : List ℕ) → rows_of row ws ≡ rows → left_by_format result root row locks.new pages.new ws ≡ format_call (lent root row locks.old pages.old ws) sizes.originals sizes.capacity sizes.primaries sizes.overflow sizes.parties }
{
    refusals::format_cause(sizes, rows.lengths(&locks[..], &pages[..]))?;
    let made = memory::format_words(sizes, locks, pages);
    Ok(made)
}

// Begin an operation for party q, whose record is `party`: its record then. Nothing else is altered.
pub fn begin(
    root: Root,
    party: Party,
    lengths: Lengths,
    q: u32,
    operation: Operation,
    key: u32,
) -> Result<Party, Refusal>
    ensures { (row : List Party) (ls ps ws : List ℕ) → lengths_of (lent root row ls ps ws) ≡ lengths → (q < lengths.parties → party_at row q ≡ party) → left_by_begin result root row q ls ps ws ≡ begin_call (lent root row ls ps ws) q operation key }
{
    refusals::begin_cause(root, party, lengths, q)?;
    let next = records::begun(operation, key);
    Ok(next)
}

// The step that locks a chain whose old pages are to be given back.
const OLD_PAGES: u32 = 13;

// What a step answers whose party stands behind another: it waits, but at 13 the old link is tested first.
#[tactic(auto, unfolding(waiting_row::specs::HeldBack::held_answer))]
fn held_back(root: Root, party: Party) -> Result<StepAnswer, Refusal>
    ensures { result ≡ held_answer root party }
{
    if party.step == OLD_PAGES && !chains::names_overflow(root, party.old) {
        return Err(Refusal::Damage);
    }
    Ok(StepAnswer::Waiting)
}

// One step on the copies of both records: refused by the table, held back, or the step that the party's record names.
fn step_in_place(
    work: &mut Working,
    rows: Rows,
    locks: &mut [u32],
    pages: &mut [u32],
    place: Place,
) -> Result<StepAnswer, Refusal>
    ensures number { work.new.number ≡ work.old.number }
    ensures left { (row : List Party) (ws : List ℕ) → rows_of row ws ≡ rows → (work.old.number < rows.parties → party_at row work.old.number ≡ work.old.party) → PlaceRight work.old.root row ws work.old.number place → left_in_place result work.new row locks.new pages.new ws ≡ step_call (lent work.old.root row locks.old pages.old ws) work.old.number }
{
    let lengths = rows.lengths(&locks[..], &pages[..]);
    refusals::step_cause(work.root, work.party, lengths, work.number)?;
    if !place.apart {
        return dispatch::step_by_number(work, locks, pages);
    }
    if !place.sound {
        return Err(Refusal::Damage);
    }
    held_back(work.root, work.party)
}

// One step for party q, whose record is `party` and whose place in the waiting row is `place`; past the row's end no
// record is looked at.
pub fn step(
    root: Root,
    party: Party,
    rows: Rows,
    q: u32,
    locks: &mut [u32],
    pages: &mut [u32],
    place: Place,
) -> Stepped
    ensures { (row : List Party) (ws : List ℕ) → rows_of row ws ≡ rows → (q < rows.parties → party_at row q ≡ party) → PlaceRight root row ws q place → left_by_step result row q locks.new pages.new ws ≡ step_call (lent root row locks.old pages.old ws) q }
{
    let mut work = Working {
        root,
        party,
        number: q,
    };
    let answer = step_in_place(&mut work, rows, locks, pages, place);
    Stepped {
        root: work.root,
        party: work.party,
        answer,
    }
}

// Withdraw for party q, whose record is `party` and whose place in the waiting row is `place`: both records then. Past
// the row's end no record is looked at.
pub fn withdraw(
    root: Root,
    party: Party,
    rows: Rows,
    q: u32,
    locks: &mut [u32],
    pages: &mut [u32],
    place: Place,
) -> Result<(Root, Party), Refusal>
    ensures { (row : List Party) (ws : List ℕ) → rows_of row ws ≡ rows → (q < rows.parties → party_at row q ≡ party) → PlaceRight root row ws q place → left_by_withdraw result root row q locks.new pages.new ws ≡ withdraw_call (lent root row locks.old pages.old ws) q }
{
    let lengths = rows.lengths(&locks[..], &pages[..]);
    refusals::withdraw_cause(root, party, lengths, q, place.sound)?;
    let mut work = Working {
        root,
        party,
        number: q,
    };
    withdraw::withdrawn(&mut work, locks, pages)?;
    Ok((work.root, work.party))
}

// Why begin, step and withdraw are refused for a party past the row's end: no record is looked at, and nothing is
// altered.
pub fn past(root: Root, lengths: Lengths, q: u32) -> Refusal
    ensures begins { (row : List Party) (ls ps ws : List ℕ) (o : Operation) (k : ℕ) → lengths_of (lent root row ls ps ws) ≡ lengths → lengths.parties ≤ q → called (Err result) (lent root row ls ps ws) ≡ begin_call (lent root row ls ps ws) q o k }
    ensures steps { (row : List Party) (ls ps ws : List ℕ) → lengths_of (lent root row ls ps ws) ≡ lengths → lengths.parties ≤ q → called (Err result) (lent root row ls ps ws) ≡ step_call (lent root row ls ps ws) q }
    ensures withdraws { (row : List Party) (ls ps ws : List ℕ) → lengths_of (lent root row ls ps ws) ≡ lengths → lengths.parties ≤ q → called (Err result) (lent root row ls ps ws) ≡ withdraw_call (lent root row ls ps ws) q }
{
    match refusals::place_cause(root, lengths, q) {
        Err(cause) => cause,
        // Only a party with a record passes.
        Ok(()) => Refusal::Party,
    }
}

// Take-up of a file whose records and waiting row are all zero or not as `idle` says: it is tested, and nothing is
// altered.
pub fn take_up(
    root: Root,
    idle: bool,
    rows: Rows,
    locks: &[u32],
    pages: &[u32],
) -> Result<(), Refusal>
    ensures { (row : List Party) (ws : List ℕ) → rows_of row ws ≡ rows → (all_idle row && all_zero ws) ≡ idle → called result (lent root row locks.now pages.now ws) ≡ take_up_call (lent root row locks.now pages.now ws) }
{
    refusals::take_up_cause(root, idle, rows.lengths(locks, pages))?;
    if !take_up::words_saved(root, locks, pages) {
        return Err(Refusal::Unsaved);
    }
    Ok(())
}
