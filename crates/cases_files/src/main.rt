// Runs reader and writer on the cases of standard input and prints what they give. A case is a line: a letter, a
// space and a text, in which `/` stands for a line feed, `\r`, `\t` and `\0` for those bytes and `\h` for byte 178.
// Each line is printed again, cut at 120 bytes, with the answer after it. A line that begins with `#` is a heading.
// - `r` read the text: the outcome, and of a refused text whether its set is empty, zero throughout
// - `v` read the text and show the set: positions, sizes, number of rules, and of each rule its cost, condition and
//   effect. Entries are bytes: 16 is `x1`, 17 `x2`
// - `c` read every front part of the text, from the empty one to the whole: the outcomes, a digit each
// - `w` read the text and write its set into five buffers: of no byte, one byte shorter than the text, as long, one
//   byte longer, and of 65,536 bytes: outcome and length of each, and what the buffer then holds
// - `s` read the text, change the set in each of some ways and write it: the outcomes, a digit each
// The answers that `stdout` holds were written by hand from documents 01 and 02.
#![tactic(auto)]

ghost use Rattle.std.specs.Prelude.{◌≤◌};
ghost use Rattle.arrayvec.specs.ArrayVec.{array_vec_len};

use arrayvec::ArrayVec;
use cases_common::shown;
use model_spec::{Rule, RuleSet};
use standard_input::{large_buffer, read_full};
use std::io;

// The most bytes of a text, and of a buffer that a set is written into.
const TEXT_SIZE: usize = 65536;

// The byte that a letter stands for after `\`.
fn escaped(letter: u8) -> u8 {
    match letter {
        b'r' => b'\r',
        b't' => b'\t',
        b'0' => 0,
        b'h' => 178,
        other => other,
    }
}

// Makes a text the one that a part of the input stands for, as far as there is room. A `\` at its end stands for 0.
fn decode(input: &[u8], text: &mut ArrayVec<u8, TEXT_SIZE>)
    ensures { array_vec_len text.new ≤ 65536 }
{
    let mut bytes = input.iter();
    text.clear();
    while let Some(byte) = bytes.next() {
        if text.is_full() {
            break;
        }
        text.push(match *byte {
            b'/' => b'\n',
            b'\\' => escaped(bytes.next().copied().unwrap_or(0)),
            other => other,
        });
    }
}

// Whether a list is zero throughout.
fn zeros(list: &[u8]) -> bool {
    list.iter().all(|b| *b == 0)
}

// Whether a rule is zero throughout.
fn zero_rule(rule: &Rule) -> bool {
    rule.cost == 0 && zeros(&rule.condition) && zeros(&rule.effect)
}

// Whether a set is zero throughout.
fn zero_set(set: &RuleSet) -> bool {
    set.positions == 0
        && set.count == 0
        && zeros(&set.sizes)
        && set.rules.iter().all(|rule| zero_rule(rule))
}

// The outcome of a text, and what a refusal leaves of the set.
fn print_reading(rt: &impl Print, text: &[u8]) -> io::Result<()> {
    let reading = reader::read(text);
    print!(rt; "{}", reading.outcome)?;
    if reading.outcome == 0 {
        return Ok(());
    }
    if zero_set(&reading.set) {
        return print!(rt; " empty");
    }
    print!(rt; " not empty")
}

// The outcomes of all front parts, from the empty one to the whole, a digit each.
fn print_cuts(rt: &impl Print, text: &[u8]) -> io::Result<()> {
    for cut in 0..=text.len() {
        let reading = reader::read(&text[..cut]);
        print!(rt; "{}", reading.outcome)?;
    }
    Ok(())
}

// Whether the buffer holds the text and then zeros.
fn holds(buffer: &[u8], text: &[u8]) -> bool {
    let size = text.len().min(buffer.len());
    buffer[..size] == text[..size] && zeros(&buffer[size..])
}

// What the buffer holds: nothing but zeros, the text and then zeros, or something else.
fn print_content(rt: &impl Print, buffer: &[u8], text: &[u8]) -> io::Result<()> {
    if zeros(buffer) {
        return print!(rt; "zeros");
    }
    if holds(buffer, text) {
        return print!(rt; "text");
    }
    print!(rt; "other")
}

// Writes a set into a buffer of so many bytes, full of `z` before: outcome, length and what the buffer then holds.
// Nothing for more than 65,536 bytes.
fn print_written(rt: &impl Print, set: RuleSet, text: &[u8], size: usize) -> io::Result<()> {
    let mut space = [b'z'; TEXT_SIZE];
    let Some(buffer) = space.get_mut(..size) else {
        return Ok(());
    };
    let written = writer::write(set, buffer);
    print!(rt; "{},{},", written.outcome, written.length)?;
    print_content(rt, buffer, text)
}

// Writes the set of a text into five buffers. Nothing for the empty text.
fn print_rewritten(rt: &impl Print, text: &[u8]) -> io::Result<()> {
    let set = reader::read(text).set;
    let size = text.len();
    if size == 0 {
        return Ok(());
    }
    print_written(rt, set, text, 0)?;
    for wide in [size - 1, size, size + 1, 65536] {
        print!(rt; " ")?;
        print_written(rt, set, text, wide)?;
    }
    Ok(())
}

// The numbers of a list, a space before each.
fn print_list(rt: &impl Print, list: &[u8]) -> io::Result<()> {
    for number in list {
        print!(rt; " {number}")?;
    }
    Ok(())
}

// A rule: its cost, condition and effect.
fn print_rule(rt: &impl Print, rule: &Rule) -> io::Result<()> {
    print!(rt; "; cost {} if", rule.cost)?;
    print_list(rt, &rule.condition)?;
    print!(rt; " then")?;
    print_list(rt, &rule.effect)
}

// The set of a text.
fn print_set(rt: &impl Print, text: &[u8]) -> io::Result<()> {
    let set = reader::read(text).set;
    print!(rt; "{} positions, sizes", set.positions)?;
    print_list(rt, &set.sizes)?;
    print!(rt; ", {} rules", set.count)?;
    for rule in set.rules.iter().take(set.count as usize) {
        print_rule(rt, rule)?;
    }
    Ok(())
}

// The set with one part of it spoiled, in one of twelve ways, of which the ninth, size 1 at position 1, spoils nothing
// where every rule has 0 there; in the thirteenth with the first rule's lines at cost 9 as its second rule, which
// spoils nothing; in any other way the set itself.
fn spoiled(set: RuleSet, way: u8) -> RuleSet {
    let mut other = set;
    let mut first = set.rules[0];
    match way {
        0 => other.positions = 0,
        1 => other.positions = 255,
        2 => other.sizes[15] = 2,
        3 => other.count = 0,
        4 => other.count = 255,
        5 => first.condition[15] = 1,
        6 => first.effect[0] = 255,
        7 => other.rules[30].cost = 1,
        8 => other.sizes[0] = 1,
        9 => other.sizes[0] = 17,
        10 => first.condition[0] = 17,
        11 => {
            other.rules[1] = first;
            other.count = 2;
        }
        12 => {
            other.rules[1] = Rule { cost: 9, ..first };
            other.count = 2;
        }
        _ => {}
    }
    other.rules[0] = first;
    other
}

// The outcomes of writing the set of a text, changed in each way and at last as it is, a digit each; the buffer has
// room for the short texts of these cases.
fn print_spoiled(rt: &impl Print, text: &[u8]) -> io::Result<()> {
    let set = reader::read(text).set;
    for way in 0..14u8 {
        let mut buffer = [0u8; 256];
        let written = writer::write(spoiled(set, way), &mut buffer);
        print!(rt; "{}", written.outcome)?;
    }
    Ok(())
}

// The line, cut at 120 bytes.
fn print_line(rt: &impl Print, line: &[u8]) -> io::Result<()> {
    let (front, dots) = shown(line);
    rt.write_all(front)?;
    rt.write_all(dots)
}

// The answer to a case, by its letter.
fn print_answer(rt: &impl Print, verb: u8, text: &[u8]) -> io::Result<()> {
    match verb {
        b'r' => print_reading(rt, text),
        b'c' => print_cuts(rt, text),
        b'w' => print_rewritten(rt, text),
        b'v' => print_set(rt, text),
        b's' => print_spoiled(rt, text),
        _ => Ok(()),
    }
}

// One case, or a heading, on a line of the input. The text that is lent becomes the one that the case stands for.
fn run(rt: &impl Print, line: &[u8], text: &mut ArrayVec<u8, TEXT_SIZE>) -> io::Result<()> {
    let [verb, _, input @ ..] = line else {
        return Ok(());
    };
    print_line(rt, line)?;
    if *verb != b'#' {
        decode(input, text);
        print!(rt; " -> ")?;
        print_answer(rt, *verb, text)?;
    }
    print!(rt; "\n")
}

// The cases of all lines.
fn run_lines(rt: &impl Print, input: &[u8]) -> io::Result<()> {
    let mut text = ArrayVec::new();
    for line in input.split(|b| *b == b'\n') {
        run(rt, line, &mut text)?;
    }
    Ok(())
}

fn main(rt: HostRuntime) -> io::Result<()> {
    let mut input = large_buffer();
    let n = read_full(&mut rt.stdin(), &mut input)?;
    run_lines(&rt, &input[..n])
}
