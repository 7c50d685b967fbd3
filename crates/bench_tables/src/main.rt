// Builds the table of a rule file for reach 3, checks it, and prints what it holds, and both unions over its marks as
// the last build and the last check gave them. Standard input is a line with two numbers and a space between, how often
// to build and how often to check, and then the file. Of a refused file the program prints the outcome alone.
// `bench/run` times it beside the plain comparison of all macros in Rust.
#![tactic(auto)]

ghost use Rattle.std.specs.Prelude.{◌≤◌, length};

use macros_spec::Touched;
use model_spec::{MAX_RULES, RuleSet};
use standard_input::{large_buffer, read_full};
use std::io;
use tables::{KEPT, entry_at, sequence_count};
use unions_spec::TableAnswer;

// What is counted of a table: its marks, the sum of its entries, and the sum of that sum after each entry, which
// tells the order.
#[derive(Clone, Copy, Default)]
struct Totals {
    marks: u64,
    sum: u64,
    sums: u64,
}

// Of builds or checks: how many were not refused, and the unions that the last one gave.
#[derive(Clone, Copy)]
struct Runs {
    passed: u64,
    touched: Touched,
}

// A number with one digit more; of a long number the last six digits count.
fn with_digit(value: u32, digit: u8) -> u32 {
    10 * (value % 100000) + (digit % 16) as u32
}

// The number at the start of a text, and the text behind the byte that ends its digits.
fn leading_number(text: &[u8]) -> (u32, &[u8])
    ensures { length result.1.now ≤ length text.now }
{
    let size = text.iter().position(|b| *b < b'0').unwrap_or(text.len());
    let value = text[..size]
        .iter()
        .fold(0, |value, digit| with_digit(value, *digit));
    match &text[size..] {
        [_, rest @ ..] => (value, rest),
        rest => (value, rest),
    }
}

// How many entries the table of so many rules has for reach 3; no rule file has more than 31 rules.
fn entries_of(count: u8) -> usize
    ensures { result ≤ 30784 }
{
    if MAX_RULES < count {
        return 0;
    }
    sequence_count(count, 3)
}

// The totals with an entry.
fn with_entry(totals: Totals, entry: usize) -> Totals {
    let mark = if entry == KEPT { 0 } else { 1 };
    let sum = totals.sum.wrapping_add(entry as u64);
    Totals {
        marks: totals.marks.wrapping_add(mark),
        sum,
        sums: totals.sums.wrapping_add(sum),
    }
}

fn totals_of(table: &[u8]) -> Totals {
    (0..table.len() / 2).fold(Totals::default(), |totals, i| {
        with_entry(totals, entry_at(table, i))
    })
}

// So many builds or checks.
fn runs_of<F: FnMut() -> TableAnswer>(times: u32, mut step: F) -> Runs
    requires { F.IsAlwaysCallable step }
{
    let mut runs = Runs {
        passed: 0,
        touched: Touched {
            reads: 0,
            writes: 0,
        },
    };
    for _ in 0..times {
        let answer = step();
        if answer.outcome == 0 {
            runs.passed = runs.passed.wrapping_add(1);
        }
        runs.touched = answer.touched;
    }
    runs
}

fn print_touched(rt: &impl Print, touched: Touched) -> io::Result<()> {
    println!(rt; "reads={}", touched.reads)?;
    println!(rt; "writes={}", touched.writes)
}

// Builds and checks the table of a rule set.
fn run(rt: &impl Print, set: RuleSet, builds: u32, checks: u32) -> io::Result<()> {
    let mut space = [0u8; 61568];
    let entries = entries_of(set.count);
    let table = &mut space[..2 * entries];
    let built = runs_of(builds, || builder::build_table(set, 3, table));
    let checked = runs_of(checks, || checker::check_table(set, 3, table));
    let totals = totals_of(table);
    println!(rt; "entries={entries}")?;
    println!(rt; "marks={}", totals.marks)?;
    println!(rt; "sum={}", totals.sum)?;
    println!(rt; "sums={}", totals.sums)?;
    println!(rt; "built={}", built.passed)?;
    print_touched(rt, built.touched)?;
    println!(rt; "accepted={}", checked.passed)?;
    print_touched(rt, checked.touched)
}

// Reads the two numbers and the file.
fn read(rt: &impl Print, input: &[u8]) -> io::Result<()> {
    let (builds, rest) = leading_number(input);
    let (checks, file) = leading_number(rest);
    let reading = reader::read(file);
    println!(rt; "outcome={}", reading.outcome)?;
    if reading.outcome == 0 {
        run(rt, reading.set, builds, checks)?;
    }
    Ok(())
}

fn main(rt: HostRuntime) -> io::Result<()> {
    let mut input = large_buffer();
    let n = read_full(&mut rt.stdin(), &mut input)?;
    read(&rt, &input[..n])
}
