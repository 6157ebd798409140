// The public calls in the forms that document 01 names: format, begin, step and withdraw, lent the root record, the
// row of party records, the lock words, the page words and the waiting row.
// They are thin: the work is that of `calls`, which takes the root and one party's record by value. Here a record is
// taken out of the row, and what comes back is stored where it came from: of a step only the words that it can have
// changed, by its number and its answer. Where the party stands in the waiting row is looked up before a step and a
// withdraw, and the row is changed by the answer. Past the row's end begin, step and withdraw are calls::past.
// Main statements: each call answers, and leaves in every lent word, what the model's format_call, begin_call,
// step_call and withdraw_call say, for all words and all lengths; there is nothing that a caller must see to.

#![tactic(auto)]

ghost use Rattle.std.specs.Prelude.{◌≡◌};
ghost use Rattle.model.specs.Answers.{refusal_number};
ghost use Rattle.model.specs.Calls.{called, format_call, begin_call, step_call, withdraw_call};
ghost use Rattle.model.specs.TakeUp.{all_idle, take_up_call};
ghost use Rattle.calls.specs.Lent.{lent};

use calls::Rows;
use model::{FileSizes, Operation, Party, Refusal, Root, StepAnswer};

// The number that a call returns which answers nothing but its refusal: that one's, or 0.
#[tactic(auto, unfolding(model::specs::Answers::refusal_number))]
pub fn refusal_number(answer: Result<(), Refusal>) -> u32
    ensures { result ≡ refusal_number answer }
{
    match answer {
        Ok(()) => 0,
        Err(refusal) => refusal.into(),
    }
}

// Format with these sizes, N b P V Q.
pub fn format(
    root: &mut Root,
    parties: &mut [Party],
    locks: &mut [u32],
    pages: &mut [u32],
    waiting: &mut [u32],
    sizes: FileSizes,
) -> Result<(), Refusal>
    ensures { called result (lent root.new parties.new locks.new pages.new waiting.new) ≡ format_call (lent root.old parties.old locks.old pages.old waiting.old) sizes.originals sizes.capacity sizes.primaries sizes.overflow sizes.parties }
{
    let rows = Rows::of(&parties[..], &waiting[..]);
    *root = calls::format(sizes, rows, locks, pages)?;
    parties.fill(Party::default());
    waiting.fill(0);
    Ok(())
}

// Begin an operation for party q.
pub fn begin(
    root: &Root,
    parties: &mut [Party],
    locks: &[u32],
    pages: &[u32],
    waiting: &[u32],
    q: u32,
    operation: Operation,
    key: u32,
) -> Result<(), Refusal>
    ensures { called result (lent root.now parties.new locks.now pages.now waiting.now) ≡ begin_call (lent root.now parties.old locks.now pages.now waiting.now) q operation key }
{
    let lengths = Rows::of(&parties[..], waiting).lengths(locks, pages);
    let at = q as usize;
    let Some(party) = parties.get(at).copied() else {
        return Err(calls::past(*root, lengths, q));
    };
    let begun = calls::begin(*root, party, lengths, q, operation, key)?;
    parties[at] = begun;
    Ok(())
}

// One step for party q.
pub fn step(
    root: &mut Root,
    parties: &mut [Party],
    locks: &mut [u32],
    pages: &mut [u32],
    waiting: &mut [u32],
    q: u32,
) -> Result<StepAnswer, Refusal>
    ensures { called result (lent root.new parties.new locks.new pages.new waiting.new) ≡ step_call (lent root.old parties.old locks.old pages.old waiting.old) q }
{
    let at = q as usize;
    let rows = Rows::of(&parties[..], &waiting[..]);
    let Some(party) = parties.get(at).copied() else {
        return Err(calls::past(*root, rows.lengths(&locks[..], &pages[..]), q));
    };
    let place = places::placing(root, parties, waiting, q);
    let stepped = calls::step(*root, party, rows, q, locks, pages, place);
    let mark = marks::marked(party.step, stepped.answer);
    stores::put_root(root, stepped.root, mark);
    stores::put_party(parties, at, stepped.party, mark);
    waiting_row::after_step(waiting, place.waits, q, stepped.answer);
    stepped.answer
}

// Withdraw for party q: its begin is taken back.
pub fn withdraw(
    root: &mut Root,
    parties: &mut [Party],
    locks: &mut [u32],
    pages: &mut [u32],
    waiting: &mut [u32],
    q: u32,
) -> Result<(), Refusal>
    ensures { called result (lent root.new parties.new locks.new pages.new waiting.new) ≡ withdraw_call (lent root.old parties.old locks.old pages.old waiting.old) q }
{
    let at = q as usize;
    let rows = Rows::of(&parties[..], &waiting[..]);
    let Some(party) = parties.get(at).copied() else {
        return Err(calls::past(*root, rows.lengths(&locks[..], &pages[..]), q));
    };
    let place = places::standing(root, parties, waiting, q);
    let (left, idle) = calls::withdraw(*root, party, rows, q, locks, pages, place)?;
    *root = left;
    parties[at] = idle;
    waiting_row::after_withdraw(waiting, q, Ok(()));
    Ok(())
}

// Whether every record of the row is zero.
fn all_idle(parties: &[Party]) -> bool
    ensures { result ≡ all_idle parties.now }
{
    parties.iter().all(|party| records::is_zero(*party))
}

// Take up a saved file: it is tested, and nothing is altered.
pub fn take_up(
    root: &Root,
    parties: &[Party],
    locks: &[u32],
    pages: &[u32],
    waiting: &[u32],
) -> Result<(), Refusal>
    ensures { called result (lent root.now parties.now locks.now pages.now waiting.now) ≡ take_up_call (lent root.now parties.now locks.now pages.now waiting.now) }
{
    let idle = waiting_row::at_rest(all_idle(parties), waiting);
    calls::take_up(*root, idle, Rows::of(parties, waiting), locks, pages)
}
