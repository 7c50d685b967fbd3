// Runs the builder and the check of pruning tables on the cases of standard input and prints what they give. A case
// is a line: a letter, a space and a text. Each line is printed again, cut at 120 bytes, with the answer after it. A
// line that begins with `#` is a heading. A sequence is printed as its rule numbers with commas between, the empty
// one as nothing.
// - `f` read the text, in which `/` stands for a line feed: the outcome. Its set is the one of the lines that follow
// - `s` change the set's number of positions and its number of rules to these two: whether it is valid
// - `b` a reach and a size: fill that many bytes with 170 and build a table in them: the outcome, its marks in order,
//   each as `2,1 for 1,2`, and how many entries are kept. Of more than 60 marks only the number is printed, and the
//   sum over them of the index times one more than the witness. Of a refusal: whether the bytes are zeros throughout.
//   Last come the positions that the marked sequences read and write, as two numbers, the lowest binary digit for
//   position 1; so they do after `c` and `k`
// - `c` a reach, a size and entries, as `6:7,16:12`: fill that many bytes with 255, put these values at these
//   indices, and check that table: the outcome
// - `k` a reach, a size and bytes, as `10:4,11:0`: put these values at these places of the table that stands, and
//   check that many bytes of it: the outcome
// - `e` an index: its sequence, and whether the table that stands keeps it, or for which witness it is marked
// A board of three by three cells has a position for each cell, row by row, that holds 0 for a blank (blanks are
// alike) or the number of a tile. Each of its 24 rules moves what is in one cell into the cell beside it, where there
// is a blank, and leaves a blank. It has the name of source 000, by row, column and direction. In the order of their
// names: 1 11D, 2 11R, 3 12D, 4 12L, 5 12R, 6 13D, 7 13L, 8 21D, 9 21R, 10 21U, 11 22D, 12 22L, 13 22R, 14 22U, 15
// 23D, 16 23L, 17 23U, 18 31R, 19 31U, 20 32L, 21 32R, 22 32U, 23 33L, 24 33U. The answers that `stdout` holds were
// worked out from documents 01 and 02 and the source documents by a script that runs every sequence in every state;
// where there are too many states (boards, pancakes, 16 positions of 16 values), in states that tell its entries apart,
// or by hand. Those of the small tables, and the sums where there is a pattern, were worked out by hand as well.
#![tactic(auto)]

ghost use Rattle.std.specs.Prelude.{◌*◌, ◌≤◌, length};

use cases_buffers::{put_byte, put_entry};
use cases_common::{decode, number_of, shown, split_once, up_to};
use macros_spec::Touched;
use model_spec::RuleSet;
use standard_input::{large_buffer, read_full};
use std::io;
use tables::{KEPT, entry_at};

// Puts all values of a text, as `6:7,16:12`, into the table, each by the function: an entry at its index or a byte at
// its place.
fn put_all<F: Fn(usize, usize, &mut [u8])>(text: &[u8], table: &mut [u8], put: F)
    requires { F.IsAlwaysCallable put }
{
    for part in text.split_inclusive(|b| *b == b',') {
        let (place, value) = split_once(b':', up_to(b',', part));
        put(number_of(place), number_of(value), table);
    }
}

// The index of a sequence without its last rule; of the empty sequence its own.
fn shorter(count: u8, index: usize) -> usize {
    index
        .saturating_sub(1)
        .checked_div(count as usize)
        .unwrap_or(0)
}

// The last rule of the sequence of an index, if it has one.
fn print_last(rt: &impl Print, count: u8, index: usize) -> io::Result<()> {
    if index == 0 || count == 0 {
        return Ok(());
    }
    print!(rt; "{}", (index - 1) % count as usize + 1)
}

// The rules of a sequence but for its last, each with a comma.
fn print_front(rt: &impl Print, count: u8, index: usize) -> io::Result<()> {
    let front = shorter(count, index);
    let first = shorter(count, front);
    if first != 0 {
        print_last(rt, count, first)?;
        print!(rt; ",")?;
    }
    if front != 0 {
        print_last(rt, count, front)?;
        print!(rt; ",")?;
    }
    Ok(())
}

// The sequence of an index, of at most three rules.
fn print_sequence(rt: &impl Print, count: u8, index: usize) -> io::Result<()> {
    print_front(rt, count, index)?;
    print_last(rt, count, index)
}

// A mark, if the entry is one.
fn print_mark(rt: &impl Print, count: u8, index: usize, entry: usize) -> io::Result<()> {
    if entry == KEPT {
        return Ok(());
    }
    print!(rt; "; ")?;
    print_sequence(rt, count, index)?;
    print!(rt; " for ")?;
    print_sequence(rt, count, entry)
}

// All marks of a table, in order.
fn print_marks(rt: &impl Print, count: u8, table: &[u8]) -> io::Result<()> {
    for i in 0..table.len() / 2 {
        print_mark(rt, count, i, entry_at(table, i))?;
    }
    Ok(())
}

// How many marks a table has.
fn marks_of(table: &[u8]) -> usize
    ensures { 2 * result ≤ length table.now }
{
    (0..table.len() / 2)
        .filter(|i| entry_at(table, *i) != KEPT)
        .count()
}

// The sum over the marks of the index times one more than the witness.
fn sum_of(table: &[u8]) -> usize {
    (0..table.len() / 2).fold(0, |sum: usize, i| match entry_at(table, i) {
        KEPT => sum,
        witness => sum.saturating_add(i.saturating_mul(witness.saturating_add(1))),
    })
}

// The marks of a table, or their number and their sum, and how many entries are kept.
fn print_table(rt: &impl Print, count: u8, table: &[u8]) -> io::Result<()> {
    let marks = marks_of(table);
    if marks <= 60 {
        print_marks(rt, count, table)?;
    } else {
        print!(rt; "; {marks} marks, sum {}", sum_of(table))?;
    }
    print!(rt; "; {} kept", table.len() / 2 - marks)
}

// What a refused build leaves.
fn print_refused(rt: &impl Print, table: &[u8]) -> io::Result<()> {
    if table.iter().all(|b| *b == 0) {
        return print!(rt; " zeros");
    }
    print!(rt; " not zeros")
}

// The positions that the marked sequences read and write, as numbers.
fn print_touched(rt: &impl Print, touched: Touched) -> io::Result<()> {
    print!(rt; "; reads {}; writes {}", touched.reads, touched.writes)
}

// What a check gives.
fn print_check(rt: &impl Print, set: RuleSet, reach: usize, table: &[u8]) -> io::Result<()> {
    let answer = checker::check_table(set, reach, table);
    print!(rt; "{}", answer.outcome)?;
    print_touched(rt, answer.touched)
}

// Builds a table over bytes of 170.
fn print_built(rt: &impl Print, set: RuleSet, reach: usize, table: &mut [u8]) -> io::Result<()> {
    table.fill(170);
    let answer = builder::build_table(set, reach, table);
    print!(rt; "{}", answer.outcome)?;
    if answer.outcome == 0 {
        print_table(rt, set.count, table)?;
    } else {
        print_refused(rt, table)?;
    }
    print_touched(rt, answer.touched)
}

// The answer to `b`, `c` or `k`, on a front part of the table.
fn run_table(
    rt: &impl Print,
    set: RuleSet,
    verb: u8,
    text: &[u8],
    table: &mut [u8],
) -> io::Result<()> {
    let (reach, rest) = split_once(b' ', text);
    let (size, values) = split_once(b' ', rest);
    let reach = number_of(reach);
    let size = number_of(size);
    if table.len() < size {
        return Ok(());
    }
    let part = &mut table[..size];
    match verb {
        b'b' => return print_built(rt, set, reach, part),
        b'c' => {
            part.fill(255);
            put_all(values, part, put_entry);
        }
        _ => put_all(values, part, put_byte),
    }
    print_check(rt, set, reach, part)
}

// The sequence of an index, and its entry.
fn print_entry(rt: &impl Print, count: u8, text: &[u8], table: &[u8]) -> io::Result<()> {
    let index = number_of(text);
    let entry = entry_at(table, index);
    print_sequence(rt, count, index)?;
    if entry == KEPT {
        return print!(rt; " kept");
    }
    print!(rt; " for ")?;
    print_sequence(rt, count, entry)?;
    print!(rt; ", index {entry}")
}

// The set of a text, with its outcome printed.
fn read_set(rt: &impl Print, text: &[u8]) -> io::Result<RuleSet> {
    let mut file = large_buffer();
    let size = decode(text, &mut file);
    let reading = reader::read(&file[..size]);
    print!(rt; "{}", reading.outcome)?;
    Ok(reading.set)
}

// The set with two of its numbers changed, and whether it is valid printed.
fn changed_set(rt: &impl Print, set: RuleSet, text: &[u8]) -> io::Result<RuleSet> {
    let (positions, count) = split_once(b',', text);
    let mut other = set;
    other.positions = (number_of(positions) % 256) as u8;
    other.count = (number_of(count) % 256) as u8;
    if validity::is_valid(other) {
        print!(rt; "valid")?;
    } else {
        print!(rt; "not valid")?;
    }
    Ok(other)
}

// The answer to a case, by its letter; gives the set of the next case.
fn answer(
    rt: &impl Print,
    set: RuleSet,
    verb: u8,
    text: &[u8],
    table: &mut [u8],
) -> io::Result<RuleSet> {
    match verb {
        b'f' => return read_set(rt, text),
        b's' => return changed_set(rt, set, text),
        b'e' => print_entry(rt, set.count, text, table)?,
        _ => run_table(rt, set, verb, text, table)?,
    }
    Ok(set)
}

// The line, cut at 120 bytes.
fn print_line(rt: &impl Print, line: &[u8]) -> io::Result<()> {
    let (front, dots) = shown(line);
    rt.write_all(front)?;
    rt.write_all(dots)
}

// One case, or a heading, on a line of the input; gives the set of the next line.
fn run(rt: &impl Print, set: RuleSet, line: &[u8], table: &mut [u8]) -> io::Result<RuleSet> {
    let [verb, _, text @ ..] = line else {
        return Ok(set);
    };
    let mut next = set;
    print_line(rt, line)?;
    if *verb != b'#' {
        print!(rt; ": ")?;
        next = answer(rt, set, *verb, text, table)?;
    }
    print!(rt; "\n")?;
    Ok(next)
}

// The cases of all lines; the set of the first is the empty one.
fn run_lines(rt: &impl Print, input: &[u8], table: &mut [u8]) -> io::Result<()> {
    let mut set = reader::read(b"").set;
    for line in input.split(|b| *b == b'\n') {
        set = run(rt, set, line, table)?;
    }
    Ok(())
}

fn main(rt: HostRuntime) -> io::Result<()> {
    let mut input = large_buffer();
    let mut table = large_buffer();
    let n = read_full(&mut rt.stdin(), &mut input)?;
    run_lines(&rt, &input[..n], &mut table)
}
