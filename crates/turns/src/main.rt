// The program turns (document 01, "The turns program"): one form a line on standard input, one reply a line on
// standard output.
// Input is read by blocks, and the replies to a block's lines are written before the next read, so each answer is seen
// at once. A line may be of any length.
// Main statements: `turn`, which reads and answers, leaves in the output buffer what the definition prints for the text
// that stood unanswered and the bytes read, and in memory and in the input buffer what answers all that follows as the
// definition does, whatever the blocks were (specs/Turned.antt). `put`, by which alone standard output is written, is
// given the replies to the text of the turn. At the end of the input `read_on` ends an unfinished line. Every function
// is safe and ends.

#![tactic(auto)]

ghost use Rattle.std.specs.Prelude.{◌≡◌, true, false, [], ◌∷◌, ◌++◌, ◌+◌, ◌-◌, ◌≤◌, ◌<◌, min, length, take, drop};
ghost use Rattle.lines.specs.Held.{held_in};
ghost use Rattle.lines.specs.Texts.{newline, line_length};
ghost use Rattle.turns.specs.Turned.{part, AnsweredTo, RepliesTo, most_kept};
ghost use Rattle.turns.specs.declared.Source.TheVariants as Source;

use forms::LONGEST_FORM;
use lines::{File, Lines};
use model::{Party, Root};
use std::io::Read;

const NEWLINE: u8 = b'\n';

// The most bytes of an unfinished line that are kept: one more than a form has, so that it is no form whatever follows
// (cut_alike of `lines`, proofs/LongLines.antt).
const MOST_KEPT: usize = LONGEST_FORM + 1;

// The state between two turns. The text of the turn stands in the input buffer from `start` to `to`; from `from` on it
// is not yet answered; the bytes that came last stand from `read` on. The first `end` bytes of the output buffer are
// the replies. Whether that text may have a whole line, and whether to read on.
#[derive(Clone, Copy)]
struct State {
    start: usize,
    from: usize,
    read: usize,
    to: usize,
    end: usize,
    whole: bool,
    reads_on: bool,
}

// Whether there may be more to read, the input has ended, or a read failed.
#[derive(Clone, Copy, PartialEq, Eq)]
enum Source {
    Open,
    Ended,
    Failed,
}

// What a read left: how many bytes of the buffer hold text, and what the source is after it.
#[derive(Clone, Copy)]
struct Input {
    end: usize,
    source: Source,
}

// Writes the replies of a turn to standard output; where that fails, says so. The state, the memory and the input
// buffer are those that the turn left.
fn put(rt: &(impl Print + Eprint), text: &[u8], s: State, file: &File, input: &[u8]) -> bool
    requires { RepliesTo (part input.now s.start s.to) text.now (part input.now s.from s.to) (held_in file.now) }
{
    let written = rt.write_all(text).is_ok();
    if !written {
        let _ = rt.eprint("turns: standard output cannot be written\n");
    }
    written
}

// Reads once, to behind the bytes kept; where that fails, says so. At the end of the input an unfinished line gets its
// newline.
fn read_on(rt: &impl Eprint, reader: &mut impl Read, input: &mut [u8], kept: usize) -> Input
    requires { kept < length input.old }
    ensures kept_le_end { (kept ≤ result.end) × (result.end ≤ length input.new) }
    ensures input_unchanged { take kept input.new ≡ take kept input.old }
    ensures end_after { result.source ≡ Source.Ended → (0 < kept → part input.new kept result.end ≡ newline ∷ []) × (kept ≡ 0 → result.end ≡ 0) }
{
    let Ok(n) = reader.read(&mut input[kept..]) else {
        let _ = rt.eprint("turns: standard input cannot be read\n");
        return Input {
            end: kept,
            source: Source::Failed,
        };
    };
    if n > 0 {
        return Input {
            end: kept + n,
            source: Source::Open,
        };
    }
    if kept > 0 {
        input[kept] = NEWLINE;
        return Input {
            end: kept + 1,
            source: Source::Ended,
        };
    }
    Input {
        end: kept,
        source: Source::Ended,
    }
}

// Answers lines of the text from a place of the buffer to another, as many as there is room to reply to.
fn answer_rest(input: &[u8], from: usize, to: usize, file: &mut File, out: &mut [u8]) -> Lines
    requires { (from ≤ to) × (to ≤ length input.now) × (58 ≤ length out.old) }
    ensures from_le_to { (from ≤ result.from) × (result.from ≤ to) × (result.end ≤ length out.new) }
    ensures to_value { result.from ≤ from → line_length (part input.now result.from to) ≡ length (part input.now result.from to) }
    ensures answered_to { AnsweredTo (part input.now from to) (held_in file.old) (take result.end out.new) (part input.now result.from to) (held_in file.new) }
{
    let answered = lines::answer_lines(&input[from..to], file, out);
    Lines {
        from: from + answered.from,
        end: answered.end,
    }
}

// Moves the start of an unfinished line to the front of the buffer: how many bytes of it are kept.
fn keep(input: &mut [u8], from: usize, to: usize) -> usize
    requires { (from ≤ to) × (to ≤ length input.old) }
    ensures value { (result ≡ min most_kept (to - from)) × (result ≤ to - from) × (result ≤ 64) }
    ensures input_after { take result input.new ≡ take result (drop from input.old) }
{
    let kept = MOST_KEPT.min(to - from);
    input.copy_within(from..from + kept, 0);
    kept
}

// Answers lines of the text that stands in the buffer; where it has no whole line, reads once first.
fn turn(
    rt: &impl Eprint,
    reader: &mut impl Read,
    s: State,
    file: &mut File,
    input: &mut [u8],
    out: &mut [u8],
) -> State
    requires from_le_to { (s.from ≤ s.to) × (s.to ≤ length input.old) × (64 < length input.old) × (58 ≤ length out.old) }
    requires to_value { s.whole ≡ false → line_length (part input.old s.from s.to) ≡ length (part input.old s.from s.to) }
    ensures from_le_to_2 { (result.from ≤ result.to) × (result.to ≤ length input.new) × (result.end ≤ length out.new) }
    ensures to_after { result.whole ≡ false → line_length (part input.new result.from result.to) ≡ length (part input.new result.from result.to) }
    ensures replies_to { RepliesTo (part input.new result.start result.to) (take result.end out.new) (part input.new result.from result.to) (held_in file.new) }
    ensures read_value { (s.whole ≡ true → (result.read ≡ s.to) × (result.to ≡ s.to)) × (s.whole ≡ false → result.read ≡ min most_kept (s.to - s.from)) }
    ensures answered_to { AnsweredTo (part input.old s.from s.to ++ part input.new result.read result.to) (held_in file.old) (take result.end out.new) (part input.new result.from result.to) (held_in file.new) }
{
    if s.whole {
        let a = answer_rest(input, s.from, s.to, file, out);
        return State {
            start: s.from,
            from: a.from,
            read: s.to,
            to: s.to,
            end: a.end,
            whole: a.from > s.from,
            reads_on: s.reads_on,
        };
    }
    let kept = keep(input, s.from, s.to);
    let i = read_on(rt, reader, input, kept);
    let b = answer_rest(input, 0, i.end, file, out);
    State {
        start: 0,
        from: b.from,
        read: kept,
        to: i.end,
        end: b.end,
        whole: b.from > 0,
        reads_on: i.source == Source::Open,
    }
}

// Turns until the input ends or a read or a write fails; the replies of each turn are written before the next. A proved
// loop has to end, and nothing says that the input does: so it counts, to a number that no run uses up.
#[tactic(auto, unfolding(lines::specs::Texts::line_length))]
fn run(
    rt: &(impl Print + Eprint),
    reader: &mut impl Read,
    file: &mut File,
    input: &mut [u8],
    out: &mut [u8],
)
    requires { (64 < length input.old) × (58 ≤ length out.old) }
{
    let mut s = State {
        start: 0,
        from: 0,
        read: 0,
        to: 0,
        end: 0,
        whole: false,
        reads_on: true,
    };
    for _ in 0..u64::MAX {
        if !s.whole && !s.reads_on {
            return;
        }
        s = turn(rt, reader, s, file, input, out);
        if !put(rt, &out[..s.end], s, file, input) {
            return;
        }
    }
}

// Memory as it starts: zero. The records, lock words, page words and waiting row of the largest file, and the two
// buffers.
fn main(rt: HostRuntime) {
    let mut root = Root::default();
    let mut row = [Party::default(); 16];
    let mut locks = [0u32; 257];
    let mut pages = [0u32; 16384];
    let mut waiting = [0u32; 16];
    let mut file = File {
        root: &mut root,
        row: &mut row[..],
        locks: &mut locks[..],
        pages: &mut pages[..],
        waiting: &mut waiting[..],
    };
    let mut input = [0u8; 65600];
    let mut out = [0u8; 65536];
    let mut stdin = rt.stdin();
    run(&rt, &mut stdin, &mut file, &mut input[..], &mut out[..]);
}
