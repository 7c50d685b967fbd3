// Runs macros and redundancy on the cases of standard input and prints what they give. A case is a line: a letter, a
// space and a text. Each line is printed again, cut at 120 bytes, with the answer after it. A line that begins with
// `#` is a heading. Moves are numbers with commas between; nothing stands for the empty sequence.
// - `f` read the text, in which `/` stands for a line feed: the outcome. Its set is the one of the lines that follow
// - `s` change the set's number of positions and its number of rules to these two: whether it is valid
// - `m` the macro of these moves: the outcome, and condition, effect and cost in the notation of a rule file, and the
//   positions that it reads and writes, with commas between; of a refusal whether the answer is zeros throughout
// - `w` whether the moves before ` by ` are redundant with those after it
// The answers that `stdout` holds were written by hand from documents 01 and 02 and from the source documents.
#![tactic(auto)]

use arrayvec::ArrayVec;
use cases_common::{decode, shown, split_once};
use macros_spec::{Macro, MacroAnswer, Touched, Vectors};
use model_spec::{FIRST_VARIABLE, RuleSet};
use moves::{cost_of, rule_at};
use standard_input::{large_buffer, read_full};
use std::io;

// The most moves that are read of a text: more than a sequence may have.
const MOST_MOVES: usize = 64;

// The number of a text, below 256: what is above is left out.
fn byte_of(text: &[u8]) -> u8 {
    text.iter().fold(
        0,
        |number: u8, digit| number.wrapping_mul(10).wrapping_add(*digit % 16),
    )
}

// The moves of a text, at most 64.
fn moves_of(text: &[u8]) -> ArrayVec<u8, MOST_MOVES> {
    let mut moves = ArrayVec::new();
    if !text.is_empty() {
        let _full = moves.extend(text.split(|b| *b == b',').map(|number| byte_of(number)));
    }
    moves
}

// Whether a list is zero from a place on.
fn zeros_from(place: u8, list: &[u8]) -> bool {
    list.iter().skip(place as usize).all(|b| *b == 0)
}

// Whether both vectors of a macro are zero from a place on.
fn blank_from(place: u8, found: Macro) -> bool {
    zeros_from(place, &found.condition) && zeros_from(place, &found.effect)
}

// An entry, in the notation of a rule file.
fn print_entry(rt: &impl Print, entry: u8) -> io::Result<()> {
    if entry < FIRST_VARIABLE {
        return print!(rt; "{entry}");
    }
    print!(rt; "x{}", entry - 15)
}

// The entries of the positions, with commas between.
fn print_entries(rt: &impl Print, positions: u8, entries: &[u8]) -> io::Result<()> {
    for (i, entry) in entries.iter().enumerate().take(positions as usize) {
        if i != 0 {
            print!(rt; ",")?;
        }
        print_entry(rt, *entry)?;
    }
    Ok(())
}

// A macro, and whether something stands in its unused places.
fn print_lines(rt: &impl Print, positions: u8, found: Macro) -> io::Result<()> {
    print!(rt; "  if=")?;
    print_entries(rt, positions, &found.condition)?;
    print!(rt; "  then=")?;
    print_entries(rt, positions, &found.effect)?;
    print!(rt; "  cost={}", found.cost)?;
    if !blank_from(positions, found) {
        print!(rt; "  unused places not 0")?;
    }
    Ok(())
}

// The positions of a set, in rising order, with commas between.
fn print_positions(rt: &impl Print, set: u16) -> io::Result<()> {
    let mut rest = set;
    for position in 1..17u8 {
        if rest % 2 == 1 {
            print!(rt; "{position}")?;
            if 1 < rest {
                print!(rt; ",")?;
            }
        }
        rest /= 2;
    }
    Ok(())
}

// The positions that are read and written.
fn print_touched(rt: &impl Print, found: Touched) -> io::Result<()> {
    print!(rt; "  reads=")?;
    print_positions(rt, found.reads)?;
    print!(rt; "  writes=")?;
    print_positions(rt, found.writes)
}

// Whether a macro and its two sets are zeros throughout.
fn is_blank(found: Macro, sets: Touched) -> bool {
    found.cost == 0 && sets.reads == 0 && sets.writes == 0 && blank_from(0, found)
}

// Whether a refusal is zeros throughout.
fn print_blank(rt: &impl Print, answer: MacroAnswer) -> io::Result<()> {
    if is_blank(answer.result, answer.touched) {
        return print!(rt; " zeros");
    }
    print!(rt; " not zeros")
}

// The macro of the moves of a text.
fn print_macro(rt: &impl Print, set: RuleSet, text: &[u8]) -> io::Result<()> {
    let moves = moves_of(text);
    let answer = macros::macro_of(set, &moves);
    print!(rt; "{}", answer.outcome)?;
    if answer.outcome == 0 {
        print_lines(rt, set.positions, answer.result)?;
        return print_touched(rt, answer.touched);
    }
    print_blank(rt, answer)
}

// The vectors of a sequence.
fn composed(set: RuleSet, moves: &[u8]) -> Vectors {
    moves
        .iter()
        .fold(composition::empty(set), |sequence, number| {
            composition::extended(sequence, rule_at(set, *number))
        })
}

// Whether a sequence is redundant with another. Its cost fits: at most 64 moves cost at most 16,320.
fn print_redundancy(rt: &impl Print, set: RuleSet, moves: &[u8], witness: &[u8]) -> io::Result<()> {
    let sequence = composed(set, moves);
    let cost = cost_of(set, moves).min(65535) as u16;
    if redundancy::is_redundant(set, sequence, cost, witness) {
        return print!(rt; "yes");
    }
    print!(rt; "no")
}

// The same of the two sequences of a text, with ` by ` between.
fn print_compared(rt: &impl Print, set: RuleSet, text: &[u8]) -> io::Result<()> {
    let (moves, rest) = split_once(b' ', text);
    let [_, _, _, witness @ ..] = rest else {
        return Ok(());
    };
    let moves = moves_of(moves);
    let witness = moves_of(witness);
    print_redundancy(rt, set, &moves, &witness)
}

// The set of a text, with its outcome printed.
fn read_set(rt: &impl Print, text: &[u8]) -> io::Result<RuleSet> {
    let mut file = large_buffer();
    let size = decode(text, &mut file);
    let reading = reader::read(&file[..size]);
    print!(rt; "{}", reading.outcome)?;
    Ok(reading.set)
}

// The set with two of its numbers changed, and whether it is valid printed.
fn changed_set(rt: &impl Print, set: RuleSet, text: &[u8]) -> io::Result<RuleSet> {
    let (positions, rest) = split_once(b',', text);
    let (count, _) = split_once(b',', rest);
    let mut other = set;
    other.positions = byte_of(positions);
    other.count = byte_of(count);
    if validity::is_valid(other) {
        print!(rt; "valid")?;
    } else {
        print!(rt; "not valid")?;
    }
    Ok(other)
}

// The answer to a case, by its letter; gives the set of the next case.
fn answer(rt: &impl Print, set: RuleSet, verb: u8, text: &[u8]) -> io::Result<RuleSet> {
    match verb {
        b'f' => return read_set(rt, text),
        b's' => return changed_set(rt, set, text),
        b'm' => print_macro(rt, set, text)?,
        b'w' => print_compared(rt, set, text)?,
        _ => {}
    }
    Ok(set)
}

// The line, cut at 120 bytes.
fn print_line(rt: &impl Print, line: &[u8]) -> io::Result<()> {
    let (front, dots) = shown(line);
    rt.write_all(front)?;
    rt.write_all(dots)
}

// One case, or a heading, on a line of the input; gives the set of the next line.
fn run(rt: &impl Print, set: RuleSet, line: &[u8]) -> io::Result<RuleSet> {
    let [verb, _, text @ ..] = line else {
        return Ok(set);
    };
    let mut next = set;
    print_line(rt, line)?;
    if *verb != b'#' {
        print!(rt; ": ")?;
        next = answer(rt, set, *verb, text)?;
    }
    print!(rt; "\n")?;
    Ok(next)
}

// The cases of all lines; the set of the first is the empty one.
fn run_lines(rt: &impl Print, input: &[u8]) -> io::Result<()> {
    let mut set = reader::read(b"").set;
    for line in input.split(|b| *b == b'\n') {
        set = run(rt, set, line)?;
    }
    Ok(())
}

fn main(rt: HostRuntime) -> io::Result<()> {
    let mut input = large_buffer();
    let n = read_full(&mut rt.stdin(), &mut input)?;
    run_lines(&rt, &input[..n])
}
