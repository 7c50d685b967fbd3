// Builds the table of a rule file, searches once with it, and prints the answer. Standard input is a line with four
// numbers and a space between each two: the reach, the bound on moves, the bound on cost and the step limit; a line
// with the start and one with the goal, a number for each position and a comma between each two, 255 in the goal for
// any value; and then the file. Of a refused file the program prints its outcome alone. `bench/run` times it beside
// the same search in Rust.
#![tactic(auto)]

ghost use Rattle.std.specs.Prelude.{◌≤◌, length};

use arrayvec::ArrayVec;
use model_spec::{MAX_RULES, MOVE_LIMIT, PLACE_COUNT, RuleSet};
use search_spec::{Answer, NO_MOVE, Query};
use standard_input::{large_buffer, read_full};
use std::io;
use tables::sequence_count;

// What the first line gives.
#[derive(Clone, Copy)]
struct Bounds {
    reach: usize,
    max_moves: usize,
    max_cost: u16,
    step_limit: u32,
}

// A number with one digit more; of a long number the last digits count.
fn with_digit(value: u64, digit: u8) -> u64 {
    10 * (value % 1000000000000) + (digit % 16) as u64
}

// The number at the start of a text, the byte that ends its digits, and the text behind that byte.
fn leading_number(text: &[u8]) -> (u64, Option<u8>, &[u8])
    ensures { length result.2.now ≤ length text.now }
{
    let size = text.iter().position(|b| *b < b'0').unwrap_or(text.len());
    let value = text[..size]
        .iter()
        .fold(0, |value, digit| with_digit(value, *digit));
    match &text[size..] {
        [end, rest @ ..] => (value, Some(*end), rest),
        rest => (value, None, rest),
    }
}

// The numbers of a line, one for each position at most, and the text behind them.
fn leading_line(text: &[u8]) -> (ArrayVec<u8, PLACE_COUNT>, &[u8])
    ensures { length result.1.now ≤ length text.now }
{
    let mut numbers = ArrayVec::new();
    let mut rest = text;
    for _ in 0..PLACE_COUNT {
        let (number, end, behind) = leading_number(rest);
        numbers.push((number % 256) as u8);
        rest = behind;
        if end != Some(b',') {
            break;
        }
    }
    (numbers, rest)
}

// The bounds of the first line, and the text behind it.
fn leading_bounds(text: &[u8]) -> (Bounds, &[u8])
    ensures { length result.1.now ≤ length text.now }
{
    let (reach, _, rest) = leading_number(text);
    let (moves, _, rest) = leading_number(rest);
    let (cost, _, rest) = leading_number(rest);
    let (steps, _, rest) = leading_number(rest);
    let bounds = Bounds {
        reach: reach as usize,
        max_moves: moves as usize,
        max_cost: (cost % 65536) as u16,
        step_limit: (steps % 4294967296) as u32,
    };
    (bounds, rest)
}

// How many entries the table of so many rules has for a reach up to 3; no rule file has more than 31 rules.
fn entries_of(count: u8, reach: usize) -> usize
    ensures { result ≤ 30784 }
{
    if MAX_RULES < count {
        return 0;
    }
    sequence_count(count, reach)
}

fn print_answer(rt: &impl Print, answer: Answer) -> io::Result<()> {
    println!(rt; "outcome={}", answer.outcome)?;
    println!(rt; "cost={}", answer.cost)?;
    println!(rt; "length={}", answer.length)?;
    println!(rt; "steps={}", answer.steps)
}

// Prints the moves of a plan buffer, up to the first byte that is none.
fn print_moves(rt: &impl Print, plan: &[u8]) -> io::Result<()> {
    for number in plan.iter().take_while(|number| **number != NO_MOVE) {
        println!(rt; "move={number}")?;
    }
    Ok(())
}

// Builds the table of a rule set and searches with it.
fn run(rt: &impl Print, set: RuleSet, bounds: Bounds, start: &[u8], goal: &[u8]) -> io::Result<()> {
    let mut space = [0u8; 61568];
    let mut plan = [0u8; MOVE_LIMIT];
    let entries = entries_of(set.count, bounds.reach);
    let table = &mut space[0..2 * entries];
    let built = builder::build_table(set, bounds.reach, table);
    println!(rt; "built={}", built.outcome)?;
    let query = Query {
        reach: bounds.reach,
        table,
        start,
        goal,
        max_moves: bounds.max_moves,
        max_cost: bounds.max_cost,
        step_limit: bounds.step_limit,
    };
    let answer = search::search(set, query, &mut plan);
    print_answer(rt, answer)?;
    print_moves(rt, &plan)
}

// Reads the three lines and the file.
fn read(rt: &impl Print, input: &[u8]) -> io::Result<()> {
    let (bounds, rest) = leading_bounds(input);
    let (start, rest) = leading_line(rest);
    let (goal, file) = leading_line(rest);
    let reading = reader::read(file);
    println!(rt; "read={}", reading.outcome)?;
    if reading.outcome == 0 {
        run(rt, reading.set, bounds, &start, &goal)?;
    }
    Ok(())
}

fn main(rt: HostRuntime) -> io::Result<()> {
    let mut input = large_buffer();
    let n = read_full(&mut rt.stdin(), &mut input)?;
    read(&rt, &input[..n])
}
