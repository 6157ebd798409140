// The program generator (document 02, change 3): "A generator prints the table, one decimal a line."
// Main statements: put_table puts the lines of the table of the definitions, which are those of the constant that
// `mixing::table` gives; write_table, by which alone the program writes, is given these lines and nothing else.

#![tactic(auto)]

ghost use Rattle.std.specs.Prelude.{◌≡◌, ◌*◌, ◌≤◌, length, take};
ghost use Rattle.std.specs.List.{concat};
ghost use Rattle.std.proofs.lemmas.List.Edits.{sets};
ghost use Rattle.model.specs.Mixing.{next_word, outputs, table_words, table};
ghost use Rattle.mixing.specs.Constant.{constant};
ghost use Rattle.generator.specs.Printed.{line_bytes, lines_of};

const SEED: u32 = 2463534242;

const TABLE_WORDS: usize = 1024;

// Marsaglia's xorshift32, "with shifts 13 left, 17 right, 5 left": the output after x.
fn next_word(x: u32) -> u32
    ensures { result ≡ next_word x }
{
    let a = x ^ (x << 13);
    let b = a ^ (a >> 17);
    b ^ (b << 5)
}

// Puts so many outputs after x, one decimal a line, at the front of `out`; the place behind them.
fn put_outputs(count: usize, x: u32, out: &mut [u8]) -> usize
    requires { count * line_bytes ≤ length out.old }
    ensures value { (result ≡ length (lines_of (outputs count x))) × (result ≤ length out.new) }
    ensures out_after { out.new ≡ sets out.old 0 (lines_of (outputs count x)) }
{
    let mut word = x;
    let mut at = 0;
    for _line in 0..count {
        word = next_word(word);
        at = patterns::put_number(word, out, at);
        out[at] = b'\n';
        at += 1;
    }
    at
}

// Puts the table, one decimal a line, at the front of `out`; the place behind it. The lines are those of the constant:
// "the constant in the index is shown to equal what it prints".
fn put_table(out: &mut [u8]) -> usize
    requires { table_words * line_bytes ≤ length out.old }
    ensures upper_bound { (result ≤ length out.new) × (take result out.new ≡ lines_of table) }
    ensures out_after { take result out.new ≡ lines_of (concat constant) }
{
    put_outputs(TABLE_WORDS, SEED, out)
}

// Writes the table's lines to standard output.
fn write_table(rt: &impl Print, text: &[u8])
    requires { text.now ≡ lines_of table }
{
    let _ = rt.write_all(text);
}

fn main(rt: HostRuntime) {
    // 1,024 lines of at most eleven bytes, since there is no heap.
    let mut out = [0u8; 11264];
    let end = put_table(&mut out[..]);
    write_table(&rt, &out[0..end]);
}
