// A line of turns answered (document 01, "The turns program"): the form is read, its call is performed on the file that
// the program holds, and the reply is printed. Of the records and words that are there each call is lent the first, as
// many as the sizes ask for: those given for a format, else those of the root record. The others stay.
// Main statements: answer leaves the memory, and prints the reply, that line_answered says of the line and of all
// memory (specs/Lines.antt, specs/Held.antt), and the file made of the same memory; there is nothing that a caller must
// see to.

#![tactic(auto)]

ghost use Rattle.std.specs.Prelude.{◌≡◌, eqb, ℕ, ◌+◌, ◌≤◌, min, List, [], ◌++◌, length, take, drop, position};
ghost use Rattle.std.proofs.lemmas.List.Edits.{sets};
ghost use Rattle.model.specs.Sizes.{lock_words, all_page_words};
ghost use Rattle.model.specs.Calls.{called};
ghost use Rattle.forms.specs.declared.Form.TheVariants as Form;
ghost use Rattle.forms.specs.declared.Reply.TheVariants as Reply;
ghost use Rattle.forms.specs.Replies.{reply_text};
ghost use Rattle.forms.specs.Printing.{longest_reply, given};
ghost use Rattle.lines.specs.Held.{held_in, SameParts};
ghost use Rattle.lines.specs.Lines.{by_number, performed, line_answered};
ghost use Rattle.lines.specs.Texts.{newline, line_length, printed_before, text_answered};

use forms::{Form, LONGEST_REPLY, Reply};
use model::{FileSizes, Operation, PAGE_WORDS, Party, Refusal, Root, StepAnswer};
use refusals::Lengths;

// The file that a program holds: its root record, and a row of party records, lock words, page words and a waiting row
// of any lengths.
#[derive(Drop)]
pub struct File<'a> {
    pub root: &'a mut Root,
    pub row: &'a mut [Party],
    pub locks: &'a mut [u32],
    pub pages: &'a mut [u32],
    pub waiting: &'a mut [u32],
}

// What a call answers, its refusal by its number.
#[tactic(auto, unfolding(crate::specs::Lines::by_number))]
fn by_number<T: Drop>(answer: Result<T, Refusal>) -> Result<T, u32>
    ensures { result ≡ by_number answer }
{
    answer.map_err(u32::from)
}

impl File<'_> {
    // As many as the sizes in a root record ask for, or all.
    fn lent(&self, root: Root) -> Lengths
        ensures parties { result.parties ≡ min root.parties (length self.now.row.now) }
        ensures locks { result.locks ≡ min (lock_words root) (length self.now.locks.now) }
        ensures pages { result.pages ≡ min (all_page_words root) (length self.now.pages.now) }
        ensures waiting { result.waiting ≡ min root.parties (length self.now.waiting.now) }
    {
        let chains = root.primaries as usize;
        let parties = root.parties as usize;
        let page_words = PAGE_WORDS * (chains + root.overflow as usize + parties);
        Lengths {
            parties: parties.min(self.row.len()),
            locks: (chains + 1).min(self.locks.len()),
            pages: page_words.min(self.pages.len()),
            waiting: parties.min(self.waiting.len()),
        }
    }

    // Format with these sizes.
    fn format(&mut self, sizes: FileSizes) -> Result<(), Refusal>
        ensures reply { called (Reply.Format (by_number result)) (held_in self.new) ≡ performed (Form.Format sizes) (held_in self.old) }
        ensures parts { SameParts self.old self.new }
    {
        let n = self.lent(records::root_of_sizes(sizes));
        index::format(
            self.root,
            &mut self.row[..n.parties],
            &mut self.locks[..n.locks],
            &mut self.pages[..n.pages],
            &mut self.waiting[..n.waiting],
            sizes,
        )
    }

    // Begin an operation for party q. It alters no word, but is lent them by `&mut`: beside the row, lent so, a `&` of
    // another field of one struct gets no proof.
    fn begin(&mut self, q: u32, operation: Operation, key: u32) -> Result<(), Refusal>
        ensures reply { called (Reply.Begin q (by_number result)) (held_in self.new) ≡ performed (Form.Begin q operation key) (held_in self.old) }
        ensures parts { SameParts self.old self.new }
    {
        let n = self.lent(*self.root);
        index::begin(
            self.root,
            &mut self.row[..n.parties],
            &mut self.locks[..n.locks],
            &mut self.pages[..n.pages],
            &mut self.waiting[..n.waiting],
            q,
            operation,
            key,
        )
    }

    // One step for party q.
    fn step(&mut self, q: u32) -> Result<StepAnswer, Refusal>
        ensures reply { called (Reply.Step q (by_number result)) (held_in self.new) ≡ performed (Form.Step q) (held_in self.old) }
        ensures parts { SameParts self.old self.new }
    {
        let n = self.lent(*self.root);
        index::step(
            self.root,
            &mut self.row[..n.parties],
            &mut self.locks[..n.locks],
            &mut self.pages[..n.pages],
            &mut self.waiting[..n.waiting],
            q,
        )
    }

    // Withdraw for party q.
    // Like step but for the call and the form: one function for both would be given the call as a closure.
    fn withdraw(&mut self, q: u32) -> Result<(), Refusal>
        ensures reply { called (Reply.Withdraw q (by_number result)) (held_in self.new) ≡ performed (Form.Withdraw q) (held_in self.old) }
        ensures parts { SameParts self.old self.new }
    {
        let n = self.lent(*self.root);
        index::withdraw(
            self.root,
            &mut self.row[..n.parties],
            &mut self.locks[..n.locks],
            &mut self.pages[..n.pages],
            &mut self.waiting[..n.waiting],
            q,
        )
    }

    // Take the file up: it is tested, and nothing is altered.
    fn take_up(&self) -> Result<(), Refusal>
        ensures { called (Reply.TakeUp (by_number result)) (held_in self.now) ≡ performed Form.TakeUp (held_in self.now) }
    {
        let n = self.lent(*self.root);
        index::take_up(
            self.root,
            &self.row[..n.parties],
            &self.locks[..n.locks],
            &self.pages[..n.pages],
            &self.waiting[..n.waiting],
        )
    }

    // The call that a form names.
    fn perform(&mut self, form: Form) -> Reply
        ensures reply { called result (held_in self.new) ≡ performed form (held_in self.old) }
        ensures parts { SameParts self.old self.new }
    {
        match form {
            Form::Format(sizes) => Reply::Format(by_number(self.format(sizes))),
            Form::Begin(q, operation, key) => {
                Reply::Begin(q, by_number(self.begin(q, operation, key)))
            }
            Form::Step(q) => Reply::Step(q, by_number(self.step(q))),
            Form::Withdraw(q) => Reply::Withdraw(q, by_number(self.withdraw(q))),
            Form::TakeUp => Reply::TakeUp(by_number(self.take_up())),
        }
    }
}

// What a line asks for; a line that is no form alters nothing.
fn perform_line(line: &[u8], file: &mut File) -> Reply
    ensures reply { called result (held_in file.new) ≡ line_answered line.now (held_in file.old) }
    ensures parts { SameParts file.old file.new }
{
    match forms::read_form(line) {
        None => Reply::Unread,
        Some(form) => file.perform(form),
    }
}

// Answers a line: its reply is printed into `out` at place `at`, and nothing where there is no room for the longest
// reply. The result is the place behind it.
pub fn answer(line: &[u8], file: &mut File, out: &mut [u8], at: usize) -> usize
    ensures parts { SameParts file.old file.new }
    ensures memory_after { held_in file.new ≡ (line_answered line.now (held_in file.old)).memory }
    ensures out_after { out.new ≡ sets out.old at (given (length out.old) at longest_reply (reply_text (line_answered line.now (held_in file.old)).answer)) }
    ensures end_value { result ≡ at + length (given (length out.old) at longest_reply (reply_text (line_answered line.now (held_in file.old)).answer)) }
{
    let reply = perform_line(line, file);
    forms::print_reply(reply, out, at)
}

// ---- Every line of a text

const NEWLINE: u8 = b'\n';

// Where the first line not answered begins, and the place behind the replies.
#[derive(Clone, Copy)]
pub struct Lines {
    pub from: usize,
    pub end: usize,
}

// How many bytes stand before the first newline, where there is one.
fn first_newline(text: &[u8]) -> Option<usize>
    ensures { result ≡ position (λ b. eqb b newline) text.now }
{
    text.iter().position(|byte| *byte == NEWLINE)
}

// Answers the whole lines of a text, one after the other, each reply with a newline after it, until there is no room
// for one more.
pub fn answer_lines(text: &[u8], file: &mut File, out: &mut [u8]) -> Lines
    ensures parts { SameParts file.old file.new }
    ensures from_in_bounds { (result.from ≤ length text.now) × (result.end ≤ length out.new) }
    ensures by_index { (t : List ℕ) → text_answered [] (text.now ++ t) (held_in file.old) ≡ printed_before (take result.end out.new) (text_answered [] (drop result.from text.now ++ t) (held_in file.new)) }
    ensures text_value { result.from ≡ 0 → 58 ≤ length out.old → line_length text.now ≡ length text.now }
{
    let mut from = 0;
    let mut end = 0;
    // A walk from line to line, as far as there is room for replies: no index is counted.
    while let Some(length) = first_newline(&text[from..]) {
        if out.len() - end < LONGEST_REPLY + 1 {
            return Lines { from, end };
        }
        end = answer(&text[from..from + length], file, out, end);
        out[end] = NEWLINE;
        end += 1;
        from += length + 1;
    }
    Lines { from, end }
}
