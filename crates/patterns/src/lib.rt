// Lines of text by patterns: `#` in a pattern stands for a number, every other byte for itself.
// Main statements: read_number, match_at and match_rest are what specs/ says of a number and of a pattern at a place;
// put_number and fill write the text that specs/ gives; text_at and put_text do the same for text alone. That a line is
// matched exactly where the grammar derives it, with one list of numbers, and that what is filled matches again:
// proofs/Theorems.

#![tactic(auto)]

ghost use Rattle.std.specs.Prelude.{◌≡◌, suc, ◌+◌, ◌≤◌, length, take, drop, [], nat_eq, true};
ghost use Rattle.std.specs.List.{prefix_len, starts_with};
ghost use Rattle.std.proofs.lemmas.List.Edits.{sets};
ghost use Rattle.patterns.specs.Numbers.{is_digit, most_digits, all_digits, value_of, scanned, scan, decimal};
ghost use Rattle.patterns.specs.Patterns.{match_from, to_end, matched, filled};

// The byte of a pattern that stands for a number.
const HOLE: u8 = b'#';

// The most digits that a number is read with.
const MOST_DIGITS: usize = 10;

// The most numbers that a pattern may ask for.
pub const MOST_NUMBERS: usize = 5;

// The numbers found in a line, from the left, and zeros after them: a fixed array, since nothing here takes memory.
pub type Numbers = [u32; MOST_NUMBERS];

// A number read at a place of a line, and the place behind it.
#[derive(Clone, Copy)]
pub struct Number {
    pub value: u32,
    pub next: usize,
}

// What a pattern matched: the place behind it, and the numbers found.
#[derive(Clone, Copy)]
pub struct Match {
    pub next: usize,
    pub numbers: Numbers,
}

// How many digits stand at the head of a line, an eleventh being the last that is looked at: a line may be long.
#[tactic(auto, unfolding(crate::specs::Numbers::is_digit))]
fn count_digits(line: &[u8]) -> usize
    ensures { result ≡ prefix_len is_digit (take (suc most_digits) line.now) }
{
    line.iter()
        .take(MOST_DIGITS + 1)
        .take_while(|c| c.is_ascii_digit())
        .count()
}

// The value of at most ten digits.
fn value_of(digits: &[u8]) -> u64
    requires few { length digits.now ≤ most_digits }
    requires digits { all_digits digits.now ≡ true }
    ensures { result ≡ value_of digits.now }
{
    let mut value = 0;
    for c in digits {
        value = value * 10 + u64::from(*c - b'0');
    }
    value
}

// The number at place `at`, read as far as there are digits: one to ten, of a value that fits 32 bits.
// By hand: `parse` takes a sign too.
pub fn read_number(line: &[u8], at: usize) -> Option<Number>
    requires { at ≤ length line.now }
    ensures { result ≡ scanned (length line.now) (scan 0 0 (drop at line.now)) }
{
    let rest = &line[at..];
    let count = count_digits(rest);
    if count == 0 || MOST_DIGITS < count {
        return None;
    }
    let value = u32::try_from(value_of(&rest[..count])).ok()?;
    Some(Number {
        value,
        next: at + count,
    })
}

// The pattern at place `at` of the line.
pub fn match_at(pattern: &[u8], line: &[u8], at: usize) -> Option<Match>
    requires { at ≤ length line.now }
    ensures { result ≡ matched (length line.now) (match_from pattern.now [] (drop at line.now)) }
{
    let mut numbers = [0; MOST_NUMBERS];
    let mut found = 0;
    let mut next = at;
    for b in pattern {
        if *b == HOLE {
            if found == MOST_NUMBERS {
                return None;
            }
            let number = read_number(line, next)?;
            numbers[found] = number.value;
            found += 1;
            next = number.next;
        } else {
            if line.get(next) != Some(b) {
                return None;
            }
            next += 1;
        }
    }
    Some(Match { next, numbers })
}

// The pattern from place `at` to the end of the line.
pub fn match_rest(pattern: &[u8], line: &[u8], at: usize) -> Option<Match>
    requires { at ≤ length line.now }
    ensures { result ≡ matched (length line.now) (to_end (match_from pattern.now [] (drop at line.now))) }
{
    let found = match_at(pattern, line, at)?;
    (found.next == line.len()).then_some(found)
}

// Puts a number in decimal at place `at`; the place behind it.
// By hand: a Display would need a writer of bytes at a place, longer than this.
pub fn put_number(n: u32, out: &mut [u8], at: usize) -> usize
    requires { at + length (decimal n) ≤ length out.old }
    ensures value { result ≡ at + length (decimal n) }
    ensures out_after { out.new ≡ sets out.old at (decimal n) }
{
    let last = if 9 < n {
        put_number(n / 10, out, at)
    } else {
        at
    };
    out[last] = b'0' + (n % 10) as u8;
    last + 1
}

// Puts the pattern at place `at`, with the numbers in its holes; the place behind it.
pub fn fill(pattern: &[u8], numbers: &[u32], out: &mut [u8], at: usize) -> usize
    requires { at + length (filled pattern.now numbers.now) ≤ length out.old }
    ensures value { result ≡ at + length (filled pattern.now numbers.now) }
    ensures out_after { out.new ≡ sets out.old at (filled pattern.now numbers.now) }
{
    let mut left = numbers.iter();
    let mut next = at;
    for b in pattern {
        if *b == HOLE {
            next = put_number(left.next().copied().unwrap_or(0), out, next);
        } else {
            out[next] = *b;
            next += 1;
        }
    }
    next
}

// ---- Text without numbers, for lines that come often

// Whether the text stands at place `at` of the line.
pub fn text_at(text: &[u8], line: &[u8], at: usize) -> bool
    requires { at ≤ length line.now }
    ensures { result ≡ starts_with nat_eq (drop at line.now) text.now }
{
    line[at..].starts_with(text)
}

// Puts the text at place `at`; the place behind it.
#[tactic(auto, using(crate::proofs::Spelling::sets_part))]
pub fn put_text(text: &[u8], out: &mut [u8], at: usize) -> usize
    requires { at + length text.now ≤ length out.old }
    ensures value { result ≡ at + length text.now }
    ensures out_after { out.new ≡ sets out.old at text.now }
{
    let next = at + text.len();
    out[at..next].copy_from_slice(text);
    next
}
