// The forms of the program turns (document 01, "The turns program"; document 02, changes 2 and 6): the seven that it
// reads and the replies that it prints, each read and printed by its pattern.
// Main statements: read_form and read_reply are what specs/ reads of a line; print_form and print_reply write the text
// of a form and of a reply. That a line is read exactly where the grammar derives it, and that what is printed is read
// again: proofs/FormTheorems.antt and proofs/ReplyTheorems.antt.

#![tactic(auto)]

ghost use Rattle.std.specs.Prelude.{◌≡◌, None, [], ◌∷◌, ◌++◌, ◌+◌, ◌≤◌, length, drop};
ghost use Rattle.std.proofs.lemmas.List.Edits.{sets};
ghost use Rattle.patterns.specs.Patterns.{filled};
ghost use Rattle.forms.specs.Forms.{step_form, form_text};
ghost use Rattle.forms.specs.Replies.{reply_text, outcome_text, answer_text, restructuring_text};
ghost use Rattle.forms.specs.Reading.{numbers_in, or_else, as_step, read_form, read_begin, read_reply, read_step_reply, read_done, read_answer, answer_read, read_restructuring};
ghost use Rattle.forms.specs.Printing.{longest_form, longest_reply, given};

use model::{FileSizes, Operation, OperationAnswer, Restructuring, StepAnswer};
use patterns::Numbers;

// The longest text of a form, `(format` with five numbers of ten digits, and of a reply, a found with a split or a
// merge skipped.
pub const LONGEST_FORM: usize = 63;

pub const LONGEST_REPLY: usize = 57;

// A form that turns reads: the party's number stands first; a begin has its operation, an insert with its setting, and
// the key.
#[derive(Clone, Copy, PartialEq, Eq)]
pub enum Form {
    Format(FileSizes),
    Begin(u32, Operation, u32),
    Step(u32),
    Withdraw(u32),
    TakeUp,
}

// What turns prints for a line. A refusal stands by its number, since a line is read with any number there.
#[derive(Clone, Copy, PartialEq, Eq)]
pub enum Reply {
    Unread,
    Format(Result<(), u32>),
    Begin(u32, Result<(), u32>),
    Step(u32, Result<StepAnswer, u32>),
    Withdraw(u32, Result<(), u32>),
    TakeUp(Result<(), u32>),
}

// ---- Reading forms

// The numbers of a line that the pattern is.
fn numbers(pattern: &[u8], line: &[u8]) -> Option<Numbers>
    ensures { result ≡ numbers_in pattern.now line.now }
{
    Some(patterns::match_rest(pattern, line, 0)?.numbers)
}

// The form of a line that is a step. Most lines are, so their text is compared in one piece.
fn read_step(line: &[u8]) -> Option<Form>
    ensures { result ≡ or_else (numbers_in step_form line.now) as_step None }
{
    if !patterns::text_at(b"(step ", line, 0) {
        return None;
    }
    let number = patterns::read_number(line, 6)?;
    patterns::match_rest(b")", line, number.next)?;
    Some(Form::Step(number.value))
}

// The form that a line is.
pub fn read_form(line: &[u8]) -> Option<Form>
    ensures { result ≡ read_form line.now }
{
    read_step(line).or_else(|| read_begin(line))
}

// The form of a line that is no step.
// Numbers stand by index: `Some([q, k, ..])` lends a part of a variant, which gets no proof.
fn read_begin(line: &[u8]) -> Option<Form>
    ensures { result ≡ read_begin line.now }
{
    if let Some(n) = numbers(b"(begin # (find #))", line) {
        return Some(Form::Begin(n[0], Operation::Find, n[1]));
    }
    if let Some(n) = numbers(b"(begin # (insert # #))", line) {
        return Some(Form::Begin(n[0], Operation::Insert(n[2]), n[1]));
    }
    if let Some(n) = numbers(b"(begin # (delete #))", line) {
        return Some(Form::Begin(n[0], Operation::Delete, n[1]));
    }
    if let Some(n) = numbers(b"(withdraw #)", line) {
        return Some(Form::Withdraw(n[0]));
    }
    if let Some(n) = numbers(b"(format # # # # #)", line) {
        return Some(Form::Format(FileSizes {
            originals: n[0],
            capacity: n[1],
            primaries: n[2],
            overflow: n[3],
            parties: n[4],
        }));
    }
    numbers(b"(take-up)", line)?;
    Some(Form::TakeUp)
}

// ---- Reading replies

// The reply that a line is.
pub fn read_reply(line: &[u8]) -> Option<Reply>
    ensures { result ≡ read_reply line.now }
{
    if numbers(b"(unread)", line).is_some() {
        return Some(Reply::Unread);
    }
    if numbers(b"(format ok)", line).is_some() {
        return Some(Reply::Format(Ok(())));
    }
    if let Some(n) = numbers(b"(format (refused #))", line) {
        return Some(Reply::Format(Err(n[0])));
    }
    if let Some(n) = numbers(b"(begin # ok)", line) {
        return Some(Reply::Begin(n[0], Ok(())));
    }
    if let Some(n) = numbers(b"(begin # (refused #))", line) {
        return Some(Reply::Begin(n[0], Err(n[1])));
    }
    if let Some(n) = numbers(b"(withdraw # ok)", line) {
        return Some(Reply::Withdraw(n[0], Ok(())));
    }
    if let Some(n) = numbers(b"(withdraw # (refused #))", line) {
        return Some(Reply::Withdraw(n[0], Err(n[1])));
    }
    if numbers(b"(take-up ok)", line).is_some() {
        return Some(Reply::TakeUp(Ok(())));
    }
    if let Some(n) = numbers(b"(take-up (refused #))", line) {
        return Some(Reply::TakeUp(Err(n[0])));
    }
    read_step_reply(line)
}

// The reply of a line that answers a step.
fn read_step_reply(line: &[u8]) -> Option<Reply>
    ensures { result ≡ read_step_reply line.now }
{
    if let Some(n) = numbers(b"(step # moved)", line) {
        return Some(Reply::Step(n[0], Ok(StepAnswer::Moved)));
    }
    if let Some(n) = numbers(b"(step # waiting)", line) {
        return Some(Reply::Step(n[0], Ok(StepAnswer::Waiting)));
    }
    if let Some(n) = numbers(b"(step # (refused #))", line) {
        return Some(Reply::Step(n[0], Err(n[1])));
    }
    read_done(line)
}

// The reply of a line that answers a step as done.
fn read_done(line: &[u8]) -> Option<Reply>
    ensures { result ≡ read_done line.now }
{
    let head = patterns::match_at(b"(step # (done ", line, 0)?;
    let (answer, next) = read_answer(line, head.next)?;
    let made = read_restructuring(&line[next..])?;
    Some(Reply::Step(head.numbers[0], Ok(StepAnswer::Done(answer, made))))
}

// An operation's answer at a place of a line, and the place behind it.
fn read_answer(line: &[u8], at: usize) -> Option<(OperationAnswer, usize)>
    requires { at ≤ length line.now }
    ensures { result ≡ answer_read (length line.now) (read_answer (drop at line.now)) }
{
    if let Some(m) = patterns::match_at(b"(found #) ", line, at) {
        return Some((OperationAnswer::Found(m.numbers[0]), m.next));
    }
    if let Some(m) = patterns::match_at(b"absent ", line, at) {
        return Some((OperationAnswer::Absent, m.next));
    }
    if let Some(m) = patterns::match_at(b"inserted ", line, at) {
        return Some((OperationAnswer::Inserted, m.next));
    }
    if let Some(m) = patterns::match_at(b"present ", line, at) {
        return Some((OperationAnswer::Present, m.next));
    }
    if let Some(m) = patterns::match_at(b"deleted ", line, at) {
        return Some((OperationAnswer::Deleted, m.next));
    }
    if let Some(m) = patterns::match_at(b"no-page ", line, at) {
        return Some((OperationAnswer::NoPage, m.next));
    }
    None
}

// The restructuring that ends a line.
fn read_restructuring(rest: &[u8]) -> Option<Restructuring>
    ensures { result ≡ read_restructuring rest.now }
{
    if numbers(b"none))", rest).is_some() {
        return Some(Restructuring::None);
    }
    if numbers(b"split))", rest).is_some() {
        return Some(Restructuring::Split);
    }
    if numbers(b"split-skipped))", rest).is_some() {
        return Some(Restructuring::SplitSkipped);
    }
    if numbers(b"merged))", rest).is_some() {
        return Some(Restructuring::Merged);
    }
    if numbers(b"merge-skipped))", rest).is_some() {
        return Some(Restructuring::MergeSkipped);
    }
    None
}

// ---- Printing forms

// Prints a form at place `at`; the place behind it. Where `out` has not room for the longest form from there on,
// nothing is printed.
pub fn print_form(form: Form, out: &mut [u8], at: usize) -> usize
    ensures value { result ≡ at + length (given (length out.old) at longest_form (form_text form)) }
    ensures out_after { out.new ≡ sets out.old at (given (length out.old) at longest_form (form_text form)) }
{
    if out.len().saturating_sub(at) < LONGEST_FORM {
        return at;
    }
    put_form(form, out, at)
}

fn put_form(form: Form, out: &mut [u8], at: usize) -> usize
    requires { at + longest_form ≤ length out.old }
    ensures value { result ≡ at + length (form_text form) }
    ensures out_after { out.new ≡ sets out.old at (form_text form) }
{
    match form {
        Form::Step(q) => patterns::fill(b"(step #)", &[q], out, at),
        Form::Begin(q, operation, k) => put_begin(q, operation, k, out, at),
        Form::Withdraw(q) => patterns::fill(b"(withdraw #)", &[q], out, at),
        Form::Format(s) => patterns::fill(
            b"(format # # # # #)",
            &[s.originals, s.capacity, s.primaries, s.overflow, s.parties],
            out,
            at,
        ),
        Form::TakeUp => patterns::put_text(b"(take-up)", out, at),
    }
}

fn put_begin(q: u32, operation: Operation, k: u32, out: &mut [u8], at: usize) -> usize
    requires { at + longest_form ≤ length out.old }
    ensures value { result ≡ at + length (form_text (Form.Begin q operation k)) }
    ensures out_after { out.new ≡ sets out.old at (form_text (Form.Begin q operation k)) }
{
    match operation {
        Operation::Find => patterns::fill(b"(begin # (find #))", &[q, k], out, at),
        Operation::Insert(x) => patterns::fill(b"(begin # (insert # #))", &[q, k, x], out, at),
        Operation::Delete => patterns::fill(b"(begin # (delete #))", &[q, k], out, at),
    }
}

// ---- Printing replies

// Prints a reply at place `at`; the place behind it. Where `out` has not room for the longest reply from there on,
// nothing is printed.
pub fn print_reply(reply: Reply, out: &mut [u8], at: usize) -> usize
    ensures value { result ≡ at + length (given (length out.old) at longest_reply (reply_text reply)) }
    ensures out_after { out.new ≡ sets out.old at (given (length out.old) at longest_reply (reply_text reply)) }
{
    if out.len().saturating_sub(at) < LONGEST_REPLY {
        return at;
    }
    put_reply(reply, out, at)
}

fn put_reply(reply: Reply, out: &mut [u8], at: usize) -> usize
    requires { at + longest_reply ≤ length out.old }
    ensures value { result ≡ at + length (reply_text reply) }
    ensures out_after { out.new ≡ sets out.old at (reply_text reply) }
{
    match reply {
        Reply::Unread => patterns::put_text(b"(unread)", out, at),
        Reply::Format(answer) => put_outcome(b"(format ", &[], answer, out, at),
        Reply::Begin(q, answer) => put_outcome(b"(begin # ", &[q], answer, out, at),
        Reply::Step(q, answer) => put_step_reply(q, answer, out, at),
        Reply::Withdraw(q, answer) => put_outcome(b"(withdraw # ", &[q], answer, out, at),
        Reply::TakeUp(answer) => put_outcome(b"(take-up ", &[], answer, out, at),
    }
}

// Puts what a call answers that is no step, behind the pattern of its name and party.
fn put_outcome(
    call: &[u8],
    numbers: &[u32],
    answer: Result<(), u32>,
    out: &mut [u8],
    at: usize,
) -> usize
    requires { at + length (filled call.now numbers.now ++ outcome_text answer) ≤ length out.old }
    ensures value { result ≡ at + length (filled call.now numbers.now ++ outcome_text answer) }
    ensures out_after { out.new ≡ sets out.old at (filled call.now numbers.now ++ outcome_text answer) }
{
    let next = patterns::fill(call, numbers, out, at);
    match answer {
        Ok(()) => patterns::put_text(b"ok)", out, next),
        Err(n) => patterns::fill(b"(refused #))", &[n], out, next),
    }
}

// Most replies are a step's, so they are put in pieces.
fn put_step_reply(q: u32, answer: Result<StepAnswer, u32>, out: &mut [u8], at: usize) -> usize
    requires { at + longest_reply ≤ length out.old }
    ensures value { result ≡ at + length (reply_text (Reply.Step q answer)) }
    ensures out_after { out.new ≡ sets out.old at (reply_text (Reply.Step q answer)) }
{
    let answer = match answer {
        Ok(answer) => answer,
        Err(n) => return patterns::fill(b"(step # (refused #))", &[q, n], out, at),
    };
    let next = patterns::put_text(b"(step ", out, at);
    let next = patterns::put_number(q, out, next);
    match answer {
        StepAnswer::Moved => patterns::put_text(b" moved)", out, next),
        StepAnswer::Waiting => patterns::put_text(b" waiting)", out, next),
        StepAnswer::Done(answer, made) => {
            let next = patterns::put_text(b" (done ", out, next);
            let next = put_answer(answer, out, next);
            patterns::put_text(restructuring_word(made), out, next)
        }
    }
}

fn put_answer(answer: OperationAnswer, out: &mut [u8], at: usize) -> usize
    requires { at + 19 ≤ length out.old }
    ensures value { result ≡ at + length (answer_text answer) }
    ensures out_after { out.new ≡ sets out.old at (answer_text answer) }
{
    let word: &[u8] = match answer {
        OperationAnswer::Found(x) => return patterns::fill(b"(found #) ", &[x], out, at),
        OperationAnswer::Absent => b"absent ",
        OperationAnswer::Inserted => b"inserted ",
        OperationAnswer::Present => b"present ",
        OperationAnswer::Deleted => b"deleted ",
        OperationAnswer::NoPage => b"no-page ",
    };
    patterns::put_text(word, out, at)
}

// What stands for a restructuring at the end of a reply.
fn restructuring_word(made: Restructuring) -> &'static [u8]
    ensures { result.now ≡ restructuring_text made }
{
    match made {
        Restructuring::None => b"none))",
        Restructuring::Split => b"split))",
        Restructuring::SplitSkipped => b"split-skipped))",
        Restructuring::Merged => b"merged))",
        Restructuring::MergeSkipped => b"merge-skipped))",
    }
}
