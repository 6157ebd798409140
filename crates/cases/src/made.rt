// A call is made on the memory of a case, and all that is held and lent is compared with what it was before.
// Main function: came_of.

use crate::scene::{Call, Scene, sizes_of};
use model::{Operation, PAGE_WORDS, Party, Refusal, Root};

// What came of a call: its answer, and how many words of all that is held and lent are altered.
#[derive(Clone, Copy)]
pub struct Came {
    pub answer: Result<(), Refusal>,
    pub altered: u32,
}

// Every word before the call: a lock word that nobody holds, and a word that no call writes.
const WORD: u32 = 0xFC00_0000;

// Words for one chain, overflow page or party more than there may be.
const LOCK_ROOM: usize = 258;

const PAGE_ROOM: usize = 16400;

const WAITING_ROOM: usize = 17;

// Records for the most parties there may be.
const RECORDS: usize = 16;

// All that is held, lent or not.
#[derive(Drop)]
struct Held<'a> {
    root: &'a mut Root,
    row: &'a mut [Party],
    locks: &'a mut [u32],
    pages: &'a mut [u32],
    waiting: &'a mut [u32],
}

// The rows are locals of their own: a struct of them would be made in one place and copied to another.
pub fn came_of(call: Call, s: Scene) -> Came {
    let mut root = s.root;
    let mut row = [s.record; RECORDS];
    let mut locks = [WORD; LOCK_ROOM];
    let mut pages = [WORD; PAGE_ROOM];
    let mut waiting = waiting_of(s);
    let mut held = Held {
        root: &mut root,
        row: &mut row[..],
        locks: &mut locks[..],
        pages: &mut pages[..],
        waiting: &mut waiting[..],
    };
    if call == Call::TakeUp {
        return taken_up(s, &mut held);
    }
    let answer = made(call, s, &mut held);
    Came {
        answer,
        altered: altered(s, &held),
    }
}

// Take-up is given a file, and the words are compared with those of a second one. A function pays for the size of its
// locals, so only this one has two.
#[inline(never)]
fn taken_up(s: Scene, held: &mut Held) -> Came {
    let mut root = s.root;
    let mut row = [s.record; RECORDS];
    let mut locks = [WORD; LOCK_ROOM];
    let mut pages = [WORD; PAGE_ROOM];
    let mut waiting = waiting_of(s);
    let mut before = Held {
        root: &mut root,
        row: &mut row[..],
        locks: &mut locks[..],
        pages: &mut pages[..],
        waiting: &mut waiting[..],
    };
    rest(s, &mut before);
    rest(s, held);
    let answer = made(Call::TakeUp, s, held);
    Came {
        answer,
        altered: differing_held(&before, held),
    }
}

// The waiting row of the case: so many words are lent, and those behind them are words that no call writes.
fn waiting_of(s: Scene) -> [u32; WAITING_ROOM] {
    let mut row = [WORD; WAITING_ROOM];
    let lent = first(&mut row, s.waiting_words);
    lent.fill(0);
    for (word, waits) in lent.iter_mut().zip(s.waits) {
        *word = waits;
    }
    row
}

// The first of a row: so many, or all.
fn first<T>(row: &mut [T], count: usize) -> &mut [T] {
    let there = count.min(row.len());
    &mut row[..there]
}

// A file at rest, as format leaves it with b at most 6: then the root record has the b of the case, and where the
// records of the case do not rest, the row has them. The waiting row is that of the case.
fn rest(s: Scene, held: &mut Held) {
    let mut sizes = sizes_of(s.root);
    sizes.capacity = sizes.capacity.min(model::MOST_RECORDS);
    let parties = sizes.parties as usize;
    let chains = sizes.primaries as usize;
    let pages = chains + sizes.overflow as usize + parties;
    let mut waiting = [WORD; WAITING_ROOM];
    let _ = index::format(
        held.root,
        first(held.row, parties),
        first(held.locks, chains + 1),
        first(held.pages, PAGE_WORDS * pages),
        first(&mut waiting, parties),
        sizes,
    );
    held.root.capacity = s.root.capacity;
    if !s.rests {
        held.row.fill(s.record);
    }
}

// So many words are lent; of the records the first Q.
fn made(call: Call, s: Scene, held: &mut Held) -> Result<(), Refusal> {
    let root = &mut *held.root;
    let row = first(held.row, s.root.parties as usize);
    let locks = first(held.locks, s.lock_words);
    let pages = first(held.pages, s.page_words);
    let waiting = first(held.waiting, s.waiting_words);
    let q = s.party;
    match call {
        Call::Format => index::format(root, row, locks, pages, waiting, sizes_of(s.root)),
        Call::Begin => index::begin(root, row, locks, pages, waiting, q, Operation::Delete, 11),
        Call::Step => index::step(root, row, locks, pages, waiting, q).map(|_| ()),
        Call::Withdraw => index::withdraw(root, row, locks, pages, waiting, q),
        Call::TakeUp => index::take_up(root, row, locks, pages, waiting),
    }
}

// How many words are altered, lent or not: of a call on the words of the case. The sums wrap, so that no bound of them
// has to be proved.
fn altered(s: Scene, after: &Held) -> u32 {
    let mut n = differing(&words_of_root(s.root), &words_of_root(*after.root));
    for party in after.row.iter() {
        n = n.wrapping_add(differing(&words_of_party(s.record), &words_of_party(*party)));
    }
    n.wrapping_add(changed(after.locks))
        .wrapping_add(changed(after.pages))
        .wrapping_add(differing(&waiting_of(s), after.waiting))
}

// How many words are not what every word was before.
fn changed(words: &[u32]) -> u32 {
    let mut n: u32 = 0;
    for word in words {
        n = n.wrapping_add(u32::from(*word != WORD));
    }
    n
}

// How many words of all that is held differ.
fn differing_held(before: &Held, after: &Held) -> u32 {
    let mut n = differing(&words_of_root(*before.root), &words_of_root(*after.root));
    for (x, y) in before.row.iter().zip(after.row.iter()) {
        n = n.wrapping_add(differing(&words_of_party(*x), &words_of_party(*y)));
    }
    n.wrapping_add(differing(before.locks, after.locks))
        .wrapping_add(differing(before.pages, after.pages))
        .wrapping_add(differing(before.waiting, after.waiting))
}

// How many words of two rows differ.
fn differing(a: &[u32], b: &[u32]) -> u32 {
    let mut n: u32 = 0;
    for (x, y) in a.iter().zip(b) {
        n = n.wrapping_add(u32::from(x != y));
    }
    n
}

// Words are compared one by one, and no trait lists a record's.
fn words_of_root(r: Root) -> [u32; 9] {
    [
        r.originals,
        r.capacity,
        r.primaries,
        r.overflow,
        r.parties,
        r.level,
        r.next,
        r.head,
        r.free,
    ]
}

fn words_of_party(p: Party) -> [u32; 10] {
    [
        p.operation,
        p.key,
        p.step,
        p.lev,
        p.chain,
        p.other,
        p.old,
        p.owed,
        p.answer,
        p.setting,
    ]
}
