// The waiting row (document 02, change 7): who waits, first come first. Plain code over records by value and over the
// row's words.
// Main statements: requested is the lock that a party's next step requests; Looking looks at one entry of the row after
// the other, so that what it leaves is place_of (proofs/Rows.antt, placed_right); gapless, clear and somebody are tests
// of the row's zeros; after_step is what a step does to the row (proofs/Words.antt, after_right), after_withdraw what a
// withdraw does.

#![tactic(auto)]

ghost use Rattle.std.specs.Prelude.{◌≡◌, ℕ, not, ◌&&◌, ◌||◌, ◌+◌, ◌<◌, ◌≤◌, eqb, false, length, drop, position};
ghost use Rattle.model.specs.LockWords.{claim};
ghost use Rattle.model.specs.Addresses.{count_of_chains};
ghost use Rattle.model.specs.Steps.MergeLocks.{merge_stops, target_of};
ghost use Rattle.model.specs.WaitingRow.{waiters_in, all_zero, appended, row_without, row_left};
ghost use Rattle.waiting_row.specs.Requested.{by_root, stops, asks, request_in, hindered_by};
ghost use Rattle.waiting_row.specs.Entry.{named, first_seen, damaged_by, meets, looked_at, placed_by, alone, row_by};

use model::{MOST_PARTIES, Mode, Party, Refusal, Root, StepAnswer};

// ---- Requests

// A lock that a step requests: its kind, and the number of its word. A damaged record can have any chain, and its word
// is one more; so the word is wider than a lock_requests::Lock's.
#[derive(Clone, Copy, PartialEq, Eq)]
pub struct Request {
    pub mode: Mode,
    pub word: u64,
}

// n, the number of chains.
// Of any sizes, and so wider than addresses::chain_count.
fn count(root: Root) -> u64
    requires { root.level ≤ 8 }
    ensures { result ≡ count_of_chains root }
{
    refusals::span(root.originals, root.level) + u64::from(root.next)
}

// Whether a step requests nothing by the root: "if n = P give up root" (16), "if n = N give up root" (24). Of a root
// with a level above 8, which is damage, no request is told.
#[tactic(auto, unfolding(crate::specs::Requested::by_root, crate::specs::Requested::stops, crate::specs::Requested::barred, model::specs::Addresses::merge_barred))]
fn stopped(root: Root, step: u32) -> bool
    ensures { result ≡ (by_root step && stops root step) }
{
    match step {
        16 => 8 < root.level || count(root) == u64::from(root.primaries),
        24 => 8 < root.level || count(root) == u64::from(root.originals),
        _ => false,
    }
}

// The word of a merge's target: "the target is next − 1, or N × 2^(level−1) − 1 if next is 0".
fn target_word(root: Root) -> u64
    requires low { root.level ≤ 8 }
    requires goes { merge_stops root ≡ false }
    ensures { result ≡ target_of root + 1 }
{
    if root.next == 0 {
        refusals::span(root.originals, root.level - 1)
    } else {
        u64::from(root.next)
    }
}

// The lock that the party's next step requests, if any; word 0 is the root's.
#[inline(always)]
pub fn requested(root: Root, party: Party) -> Option<Request>
    ensures { result ≡ request_in (asks root party) }
{
    if !refusals::has_step(party.operation, party.step) || stopped(root, party.step) {
        return None;
    }
    let (mode, word) = match party.step {
        1 => (Mode::Read, 0),
        4 | 7 => (lock_requests::mode_of(party), u64::from(party.chain) + 1),
        13 => (Mode::Exclusive, u64::from(party.chain) + 1),
        15 => (Mode::Selective, 0),
        16 => (Mode::Selective, u64::from(root.next) + 1),
        23 => (Mode::Exclusive, 0),
        24 => (Mode::Exclusive, target_word(root)),
        25 => (Mode::Exclusive, u64::from(party.other) + 1),
        _ => return None,
    };
    Some(Request { mode, word })
}

// Whether a request that came first stands in the way of another, if there is one: both are for one lock, and Table I
// has wait.
fn hinders(first: Request, mine: Option<Request>) -> bool
    ensures { result ≡ hindered_by (claim first.word first.mode) mine }
{
    match mine {
        Some(own) => (first.word == own.word) & !lock_words::entry(own.mode, first.mode),
        None => false,
    }
}

// ---- The row, looked at

// Where a party stands: whether it is in the row; whether its step is not the one that its record names, since the row
// is damaged or the party stands behind another, and which of the two.
// Four words and no enum: placed_by and placed_right speak of each.
#[derive(Clone, Copy, PartialEq, Eq)]
pub struct Place {
    pub waits: bool,
    pub apart: bool,
    pub sound: bool,
    pub behind: bool,
}

impl Place {
    // Where nobody waits.
    pub const ALONE: Place = Place {
        waits: false,
        apart: false,
        sound: true,
        behind: false,
    };
}

// What is known once some of the row was looked at: what the party itself requests; the parties met, a bit each; the
// rest as in a place.
#[derive(Clone, Copy, PartialEq, Eq)]
pub struct Looking {
    pub mine: Option<Request>,
    pub met: u32,
    pub sound: bool,
    pub waits: bool,
    pub behind: bool,
}

// The party that a word names, "party number plus one": none where it is not one of the file's.
#[tactic(auto, unfolding(crate::specs::Entry::named))]
pub fn named_by(word: u32, parties: usize) -> Option<u32>
    ensures { result ≡ named word parties }
{
    let number = word.checked_sub(1)?;
    if (number as usize) < parties.min(MOST_PARTIES as usize) {
        Some(number)
    } else {
        None
    }
}

impl Looking {
    // Before the first entry; `gapless` says whether only zeros stand behind the last.
    #[tactic(auto, unfolding(crate::specs::Entry::first_seen))]
    pub fn started(root: Root, party: Party, gapless: bool) -> Looking
        ensures { result ≡ first_seen root party gapless }
    {
        Looking {
            mine: requested(root, party),
            met: 0,
            sound: gapless,
            waits: false,
            behind: false,
        }
    }

    // One entry more, which names no party of the file.
    pub fn damaged(self, q: u32, word: u32) -> Looking
        ensures { result ≡ damaged_by (eqb word (q + 1)) self }
    {
        Looking {
            sound: false,
            waits: self.waits | (word.checked_sub(1) == Some(q)),
            ..self
        }
    }

    // Whether the party stands behind an entry met, or behind this request: it asks only where that is still open.
    fn stands_behind(self, first: Request, waits: bool) -> bool
        ensures { result ≡ (self.behind || (not waits && hindered_by (claim first.word first.mode) self.mine)) }
    {
        self.behind || (!waits && hinders(first, self.mine))
    }

    // One entry more, which names party j, whose record this is.
    pub fn meets(self, root: Root, q: u32, j: u32, party: Party) -> Looking
        requires { j < 16 }
        ensures { result ≡ meets (eqb j q) j (asks root party) self }
    {
        let waits = self.waits | (j == q);
        let Some(theirs) = requested(root, party) else {
            return Looking {
                sound: false,
                waits,
                ..self
            };
        };
        Looking {
            met: lock_words::with_reader(self.met, j),
            sound: self.sound & (lock_words::reader(self.met, j) == 0),
            waits,
            behind: self.stands_behind(theirs, waits),
            ..self
        }
    }

    // One entry more: the word, out of a row of these records.
    pub fn looked(self, root: Root, parties: &[Party], q: u32, word: u32) -> Looking
        ensures { result ≡ looked_at self root parties.now q word }
    {
        match named_by(word, parties.len()) {
            Some(j) => self.meets(root, q, j, parties[j as usize]),
            None => self.damaged(q, word),
        }
    }

    // After the last.
    pub fn placed(self) -> Place
        ensures { result ≡ placed_by self }
    {
        Place {
            waits: self.waits,
            apart: !self.sound | self.behind,
            sound: self.sound,
            behind: self.behind,
        }
    }
}

// ---- The row's words

// Whether all these words are 0. They are or-ed, and not looked at up to the first that is not 0: of eight words the
// compiler makes two loads.
fn blank(words: &[u32]) -> bool
    ensures { result ≡ all_zero words.now }
{
    words.iter().fold(0, |all, word| all | *word) == 0
}

// The same. Every step asks: of 8 to 16 words a look at eight from each end is quicker than a loop.
fn zeros(words: &[u32]) -> bool
    ensures { result ≡ all_zero words.now }
{
    let n = words.len();
    if 8 <= n && n <= 16 {
        blank(&words[..8]) && blank(&words[n - 8..])
    } else {
        blank(words)
    }
}

// Whether all words from this index on are 0.
pub fn gapless(row: &[u32], from: usize) -> bool
    ensures { result ≡ all_zero (drop from row.now) }
{
    zeros(&row[from.min(row.len())..])
}

// Whether nobody waits: every word is 0. Where somebody does, the first word says so.
pub fn clear(row: &[u32]) -> bool
    ensures { result ≡ all_zero row.now }
{
    match row {
        [] => true,
        [first, others @ ..] => *first == 0 && zeros(others),
    }
}

// Whether nobody waits either, where all are idle or not as `idle` says.
pub fn at_rest(idle: bool, row: &[u32]) -> bool
    ensures { result ≡ (idle && all_zero row.now) }
{
    idle && clear(row)
}

// Whether anybody waits.
pub fn somebody(row: &[u32]) -> bool
    ensures { result ≡ not (all_zero row.now) }
{
    !clear(row)
}

// The index of the first word that is this number, which may be any party's plus one.
fn first(row: &[u32], sought: u64) -> Option<usize>
    ensures { result ≡ position (λ w. eqb w sought) row.now }
{
    row.iter().position(|word| u64::from(*word) == sought)
}

// How many wait: the words before the first 0.
pub fn waiters(row: &[u32]) -> usize
    ensures { result ≡ length (waiters_in row.now) }
{
    first(row, 0).unwrap_or(row.len())
}

// Party q joins: its number plus one in place of the first 0. (Called where it does not wait yet: this is then
// row_with.)
fn join(row: &mut [u32], q: u32)
    requires { q < 16 }
    ensures { row.new ≡ appended (q + 1) row.old }
{
    if let Some(free) = first(row, 0) {
        row[free] = q + 1;
    }
}

// Party q leaves: those behind its word move up, and a 0 comes at the end.
fn leave(row: &mut [u32], q: u32)
    ensures { row.new ≡ row_without q row.old }
{
    if let Some(at) = first(row, u64::from(q) + 1) {
        row[at] = 0;
        row[at..].rotate_left(1);
    }
}

// The row after a step of party q that answered so; `waits` says whether its word is there. (Words.antt, after_right:
// this is then row_after.)
#[tactic(auto, unfolding(crate::specs::Entry::row_by))]
pub fn after_step(row: &mut [u32], waits: bool, q: u32, answer: Result<StepAnswer, Refusal>)
    ensures { row.new ≡ row_by waits q row.old answer }
{
    match answer {
        Ok(StepAnswer::Waiting) => {
            if !waits & (q < MOST_PARTIES) {
                join(row, q);
            }
        }
        Ok(StepAnswer::Moved) => {
            if waits {
                leave(row, q);
            }
        }
        Ok(StepAnswer::Done(_, _)) | Err(_) => {}
    }
}

// The row after a withdraw of party q that answered so.
#[tactic(auto, unfolding(model::specs::WaitingRow::row_left))]
pub fn after_withdraw(row: &mut [u32], q: u32, answer: Result<(), Refusal>)
    ensures { row.new ≡ row_left q row.old answer }
{
    if answer.is_ok() {
        leave(row, q);
    }
}
