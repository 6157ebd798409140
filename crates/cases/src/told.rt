// What is written of a case, and the count of cases.
// Main function: judged, which makes the call, writes what the case is, what came and whether it is as it should be,
// and counts. say_verdict, by which alone a verdict is written, is given the one that specs/Verdict.antt has for what
// came; compared counts it.

ghost use Rattle.std.specs.Prelude.{◌≡◌};
ghost use Rattle.model.specs.Answers.{refusal_number};
ghost use Rattle.cases.specs.Verdict as Verdict;

use crate::made::Came;
use crate::scene::{Call, Scene};
use model::Refusal;

#[derive(Clone, Copy)]
pub struct Tally {
    pub cases: u32,
    pub wrong: u32,
}

// What the case is: the call, the text, and the numbers.
fn say_case(rt: &impl Print, call: Call, text: &str, numbers: &[u32]) {
    let _ = print!(rt; "{call}, {text}");
    for number in numbers {
        let _ = print!(rt; " {number}");
    }
}

fn say_came(rt: &impl Print, came: Came) {
    let _ = match came.answer {
        Ok(()) => print!(rt; ": accepted"),
        Err(_) => print!(rt; ": refused {}", index::refusal_number(came.answer)),
    };
    let _ = print!(rt; ", words altered {}", came.altered);
}

// Whether a call that is accepted alters something: take-up tests the file, and alters nothing.
#[tactic(auto, unfolding(crate::specs::Verdict::alters))]
fn alters(call: Call) -> bool
    ensures { result ≡ Verdict.alters call }
{
    call != Call::TakeUp
}

// The answer is the one expected; a refused call alters nothing, and an accepted one something where its call does.
fn is_right(call: Call, came: Came, expected: Result<(), Refusal>) -> bool
    ensures { result ≡ Verdict.is_right call came expected }
{
    if index::refusal_number(came.answer) != index::refusal_number(expected) {
        return false;
    }
    match expected {
        Ok(()) => (came.altered != 0) == alters(call),
        Err(_) => came.altered == 0,
    }
}

#[tactic(auto, unfolding(crate::specs::Verdict::counted))]
fn counted(t: Tally, wrong: u32) -> Tally
    ensures { result ≡ Verdict.counted t wrong }
{
    Tally {
        cases: t.cases.wrapping_add(1),
        wrong: t.wrong.wrapping_add(wrong),
    }
}

// Writes the verdict of what came: this text and no other.
fn say_verdict(rt: &impl Print, text: &[u8], call: Call, came: Came, expected: Result<(), Refusal>)
    requires { text.now ≡ Verdict.verdict (Verdict.is_right call came expected) }
{
    let _ = rt.write_all(text);
}

fn compared(
    rt: &impl Print,
    t: Tally,
    call: Call,
    came: Came,
    expected: Result<(), Refusal>,
) -> Tally
    ensures { result ≡ Verdict.tallied t (Verdict.is_right call came expected) }
{
    if is_right(call, came, expected) {
        say_verdict(rt, b", as it should be\n", call, came, expected);
        return counted(t, 0);
    }
    say_verdict(rt, b", WRONG\n", call, came, expected);
    counted(t, 1)
}

// The text and the numbers say what the case is.
pub fn judged(
    rt: &impl Print,
    t: &mut Tally,
    call: Call,
    text: &str,
    numbers: &[u32],
    s: Scene,
    expected: Result<(), Refusal>,
) {
    say_case(rt, call, text, numbers);
    let came = crate::made::came_of(call, s);
    say_came(rt, came);
    *t = compared(rt, *t, call, came, expected);
}
