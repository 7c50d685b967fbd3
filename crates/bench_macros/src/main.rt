// Composes macros of the rule file on standard input, and prints how many of them some state admits and two sums over
// the entries. They are a million two-rule macros, pair after pair of its rules; or, where a line with the numbers of a
// sequence's rules stands before the file, at most 32 and a comma between each two, that sequence and its rotations,
// 250,000 in all. Such a line begins with a digit. Of a refused file it prints the outcome alone. `bench/run` times it
// beside the same work in Rust.
#![tactic(auto)]

ghost use Rattle.std.specs.Prelude.{◌<◌, ◌≤◌, length};

use arrayvec::ArrayVec;
use composition::{empty, extended};
use macros_spec::Vectors;
use model_spec::{MAX_RULES, MOVE_LIMIT, PLACE_COUNT, RuleSet};
use standard_input::{large_buffer, read_full};
use std::io;

// What is counted of the macros: those that some state admits, the sum of their entries, and the sum of that sum
// after each entry, which tells the order.
#[derive(Clone, Copy, Default)]
struct Totals {
    admitted: u64,
    sum: u64,
    sums: u64,
}

// The totals with the entries of one vector.
fn with_entries(totals: Totals, entries: [u8; PLACE_COUNT]) -> Totals {
    let mut counted = totals;
    for entry in entries {
        counted.sum = counted.sum.wrapping_add(entry as u64);
        counted.sums = counted.sums.wrapping_add(counted.sum);
    }
    counted
}

// The totals with one macro.
fn with_macro(totals: Totals, vectors: Vectors) -> Totals {
    if !vectors.admitted {
        return totals;
    }
    let mut counted = totals;
    counted.admitted = counted.admitted.wrapping_add(1);
    with_entries(with_entries(counted, vectors.condition), vectors.effect)
}

// The place of the rule after the one at a place; after the last rule, the first.
fn next_place(count: u8, place: usize) -> usize
    requires { place < 31 }
    ensures { result < 31 }
{
    let next = place + 1;
    if next < 31 && next < count as usize {
        next
    } else {
        0
    }
}

// The place of a pair's first rule, once the second has moved on: the next one where the second begins again.
fn next_first(count: u8, first: usize, second: usize) -> usize
    requires { first < 31 }
    ensures { result < 31 }
{
    if second == 0 {
        next_place(count, first)
    } else {
        first
    }
}

// The macro of two rules.
fn pair(set: RuleSet, first: usize, second: usize) -> Vectors
    requires { (first < 31) × (second < 31) }
{
    let one = set.rules[first];
    let two = set.rules[second];
    extended(extended(empty(set), one), two)
}

// A million pairs of rules, in their order, from the first again after the last.
fn totals_of(set: RuleSet) -> Totals {
    let mut totals = Totals::default();
    let mut first: usize = 0;
    let mut second: usize = 0;
    for _ in 0..1000000u32 {
        totals = with_macro(totals, pair(set, first, second));
        second = next_place(set.count, second);
        first = next_first(set.count, first, second);
    }
    totals
}

// The place of a number's rule among the 31 of a set. A number that is no rule's does no harm: it has the first place,
// or one beyond the file's rules, where a rule of zeros stands.
fn rule_place(number: u8) -> usize
    ensures { result < 31 }
{
    if number == 0 || MAX_RULES < number {
        return 0;
    }
    (number - 1) as usize
}

// The place after one of `count`; after the last, the first.
fn next_turn(count: usize, place: usize) -> usize
    requires { place < count }
    ensures { result < count }
{
    let next = place + 1;
    if next < count { next } else { 0 }
}

// The vectors of the sequence that begins at a place of the moves and goes round.
fn composed(set: RuleSet, moves: &[u8], first: usize) -> Vectors
    requires { first < length moves.now }
{
    let mut sequence = empty(set);
    let mut place = first;
    for _ in 0..moves.len() {
        let at = rule_place(moves[place]);
        let rule = set.rules[at];
        sequence = extended(sequence, rule);
        place = next_turn(moves.len(), place);
    }
    sequence
}

// The totals of the sequence and its rotations, each begun one place later than the one before.
fn rotations_of(set: RuleSet, moves: &[u8]) -> Totals
    requires { 0 < length moves.now }
{
    let mut totals = Totals::default();
    let mut first: usize = 0;
    for _ in 0..250000u32 {
        totals = with_macro(totals, composed(set, moves, first));
        first = next_turn(moves.len(), first);
    }
    totals
}

// The totals of a list and its rotations; where the list is empty, of the pairs.
fn totals_for(set: RuleSet, moves: &[u8]) -> Totals {
    if moves.len() == 0 {
        return totals_of(set);
    }
    rotations_of(set, moves)
}

// The number of a text, below 256: what is above is left out.
fn byte_of(text: &[u8]) -> u8 {
    text.iter().fold(
        0,
        |number: u8, digit| number.wrapping_mul(10).wrapping_add(*digit % 16),
    )
}

// The number at the start of a line, the byte that ends its digits, and the text behind that byte.
fn leading_number(text: &[u8]) -> (u8, Option<u8>, &[u8])
    ensures { length result.2.now ≤ length text.now }
{
    let size = text
        .iter()
        .position(|b| *b == b',' || *b == b'\n')
        .unwrap_or(text.len());
    let number = byte_of(&text[..size]);
    match &text[size..] {
        [end, rest @ ..] => (number, Some(*end), rest),
        rest => (number, None, rest),
    }
}

// The numbers of a line, at most 32, and the text behind them.
fn leading_line(text: &[u8]) -> (ArrayVec<u8, MOVE_LIMIT>, &[u8])
    ensures { length result.1.now ≤ length text.now }
{
    let mut numbers = ArrayVec::new();
    let mut rest = text;
    for _ in 0..MOVE_LIMIT {
        let (number, end, behind) = leading_number(rest);
        numbers.push(number);
        rest = behind;
        if end != Some(b',') {
            break;
        }
    }
    (numbers, rest)
}

// The line of numbers before a rule file, and the file. Where the text begins with no digit, it is the file.
fn list_before(text: &[u8]) -> (ArrayVec<u8, MOVE_LIMIT>, &[u8])
    ensures { length result.1.now ≤ length text.now }
{
    match text {
        [b'0'..=b'9', ..] => leading_line(text),
        _ => (ArrayVec::new(), text),
    }
}

// Reads the list, if there is one, and the file, and prints what is counted.
fn run(rt: &impl Print, input: &[u8]) -> io::Result<()> {
    let (moves, file) = list_before(input);
    let reading = reader::read(file);
    println!(rt; "outcome={}", reading.outcome)?;
    if reading.outcome != 0 {
        return Ok(());
    }
    let totals = totals_for(reading.set, &moves);
    println!(rt; "admitted={}", totals.admitted)?;
    println!(rt; "sum={}", totals.sum)?;
    println!(rt; "sums={}", totals.sums)
}

fn main(rt: HostRuntime) -> io::Result<()> {
    let mut input = large_buffer();
    let n = read_full(&mut rt.stdin(), &mut input)?;
    run(&rt, &input[..n])
}
