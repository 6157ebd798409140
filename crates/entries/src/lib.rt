// Lists of records in lent buffers of words, two a record, key first (document 01, "A chain's keys ascend" and
// step 10). A record is told apart by its key alone.
// Main statements: ascends is ascending, below is place_of, has_at is has_key; put_in is inserted_into and leave_out is
// removed_from, in place.

#![tactic(auto)]

ghost use Rattle.std.specs.Prelude.{◌≡◌, true, false, ℕ, ◌+◌, ◌-◌, ◌*◌, ◌^◌, ◌≤◌, ◌<◌, length, set, take};
ghost use Rattle.model.specs.Sizes.{record_words};
ghost use Rattle.model.specs.Entries.{has_key, ascending, inserted_into, removed_from};
ghost use Rattle.model.specs.Pages.{records_in};
ghost use Rattle.model.specs.Filling.{record_at};
ghost use Rattle.entries.specs.Places.{place_of};

use model::{Entry, RECORD_WORDS};

// "keys that do not strictly ascend in a chain looked through whole" are damage. Every pair is compared, with no way
// out before the end, so that several words are compared at once.
pub fn ascends(words: &[u32]) -> bool
    ensures { result ≡ ascending (records_in words.now) }
{
    let n = words.len() / RECORD_WORDS;
    let mut falls = false;
    for i in 1..n {
        falls |= words[i * RECORD_WORDS] <= words[(i - 1) * RECORD_WORDS];
    }
    !falls
}

// How many keys are below k: in an ascending list, the place where k stands or would stand. Counted in the width of a
// key, so that several words are compared at once.
pub fn below(words: &[u32], k: u32) -> usize
    requires { length words.now < 2 ^ 32 }
    ensures { result ≡ place_of k (records_in words.now) }
{
    let count = words.len() / RECORD_WORDS;
    let mut n = 0u32;
    for i in 0..count {
        n += u32::from(words[i * RECORD_WORDS] < k);
    }
    n as usize
}

// Whether k is in an ascending list: `at` is the place where it stands or would stand.
pub fn has_at(words: &[u32], at: usize, k: u32) -> bool
    requires { (ascending (records_in words.now) ≡ true) × (at ≡ place_of k (records_in words.now)) }
    ensures { result ≡ has_key k (records_in words.now) }
{
    at < words.len() / RECORD_WORDS && words[at * RECORD_WORDS] == k
}

// Record i of the words.
pub fn record_at(words: &[u32], i: usize) -> Entry
    requires { (i + 1) * record_words ≤ length words.now }
    ensures { result ≡ record_at (records_in words.now) i }
{
    let at = i * RECORD_WORDS;
    Entry {
        key: words[at],
        setting: words[at + 1],
    }
}

// Record i of the words becomes e.
pub fn set_record(words: &mut [u32], i: usize, e: Entry)
    requires { (i + 1) * record_words ≤ length words.old }
    ensures { records_in words.new ≡ set (records_in words.old) i e }
{
    let at = i * RECORD_WORDS;
    words[at] = e.key;
    words[at + 1] = e.setting;
}

// A record is put in among the n at the front: `at` is the place where its key would stand, and the records from there
// on move up by one. They are counted beside the buffer, which has room for one more.
#[tactic(auto, using(crate::proofs::Places::place_among))]
pub fn put_in(words: &mut [u32], at: usize, n: usize, e: Entry)
    requires { ((n + 1) * record_words ≤ length words.old) × (ascending (take n (records_in words.old)) ≡ true) × (at ≡ place_of e.key (take n (records_in words.old))) × (has_key e.key (take n (records_in words.old)) ≡ false) }
    ensures { take (n + 1) (records_in words.new) ≡ inserted_into e (take n (records_in words.old)) }
{
    words.copy_within(at * RECORD_WORDS..n * RECORD_WORDS, (at + 1) * RECORD_WORDS);
    set_record(words, at, e);
}

// The record at place `at` is left out of the n at the front: those after it move down by one.
pub fn leave_out(words: &mut [u32], at: usize, n: usize)
    requires { (at < n) × (n * record_words ≤ length words.old) }
    ensures { (k : ℕ) → ascending (take n (records_in words.old)) ≡ true → has_key k (take n (records_in words.old)) ≡ true → at ≡ place_of k (take n (records_in words.old)) → take (n - 1) (records_in words.new) ≡ removed_from k (take n (records_in words.old)) }
{
    words.copy_within((at + 1) * RECORD_WORDS..n * RECORD_WORDS, at * RECORD_WORDS);
}
