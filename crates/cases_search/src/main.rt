// Runs the search, the plan handed back, the calls on tallies and the explanation of a proposal on the cases of
// standard input and prints what they give. A case is a line: a letter, a space and a text. Each line is printed again,
// cut at 120 bytes, with the answer after it. A line that begins with `#` is a heading. A number too large for 64 bits
// counts as the largest that is not.
// - `f` read the text, in which `/` stands for a line feed: the outcome. Its set is the one of the lines that follow
// - `s` change the set's number of positions and its number of rules to these two: whether it is valid
// - `b` a reach and a size: fill that many bytes with 170 and build a table in them, which then stands: the outcome
//   and how many marks it has. A size above 65,536 counts as 65,536, here and for `t`
// - `t` a size and entries, as `6:7,16:12`: the table that stands is that many bytes of 255, with these values at
//   these indices: how many marks it has
// - `q` a reach, a start, a goal, a move bound, a cost bound, a step limit and a room: search with the table that
//   stands and a plan buffer of `room` bytes, each 170 before: outcome, cost, length, steps and floor, which is 0 but
//   at outcome 18; the plan's moves, as `plan_part` hands them back; whether every other byte of the buffer is 255.
//   Start and goal have commas between their bytes, `-` is one of no bytes. A byte above 255 counts as 255, a cost
//   bound above 65,535, a step limit above 4,294,967,295 and a room above 4,096 as these numbers
// - `c` five counts with commas between, plans found, no plan, step limit exceeded, refused and steps: they are the
//   tally that then stands: the tally. All five are 0 before the first line
// - `k` the same as for `q`: a search that updates the tally that stands, with the first `room` bytes of the plan
//   buffer that stands: what `q` gives, and the tally. This buffer has 4,096 bytes, each 170 before the first line;
//   each `k` finds it as the last one left it, and `q` does not use it
// - `u` an outcome and a number of steps: the tally that stands after a query with these: once by value, once where
//   it is kept. An outcome above 255 counts as 255, steps above 4,294,967,295 as that number
// - `p` a length and a room: the plan handed back for that length from the first `room` bytes of the plan buffer
//   that stands: its bytes
// - `x` the same as for `q`, with a proposal in place of the room: why it is not the plan, with the table that stands:
//   outcome, reason and place; the costs of the proposal and of the plan; the last move of the marked segment and how
//   many moves it has; how many rules its witness has, and the witness's three bytes. A proposal is written as a start
//   is; of more than 4,096 moves the first 4,096 count
// A board of three by three cells has a position for each cell, row by row, that holds 0 for a blank (blanks are
// alike) or the number of a tile. Its 24 rules are in the order of their names in source 000, by row, column and
// direction, as in `cases_tables`: 1 is 11D, 5 is 12R, 9 is 21R, 19 is 31U.
// Of the input the first 131,072 bytes are read. A heading of request 2026-03 names wrong planners, most with
// step limits in brackets at which they would answer otherwise; `by` names the sequence whose cost is the floor.
// But for `x`, the answers that `stdout` holds were worked out from documents 01 and 02 by a script that goes through
// the visited sequences in depth-first order, up to one above the step limit; of at most 3,000 sequences within the
// move bound each was also tested by itself. Within the limit the plan was compared with the first of the cheapest of
// all sequences, pruned or not: for each length and state the cheapest that leads there, the first of these. Above it
// each extension of each looked-at sequence was tested by the definition, and the floor compared with the least cost of
// all visited ones not looked at, but for the two of 50,000 steps. Marks were tested in the states that admit a
// sequence, with different unknowns for its free entries, and in small sets also by running both in every state. P1, P3
// to P5, P9 and P10 are as document 01 gives them, P2 as request 2026-03 does. The numbers of steps that a heading
// gives were worked out by hand, and so were its plans and floors.
// The answers to `x` were worked out by hand, line by line, from document 02, and compared with a script that tries
// every segment and every reason on lists of all sequences, and finds the plan as above where these are more than
// 3,000.
#![tactic(auto)]

ghost use Rattle.std.specs.Prelude.{◌≤◌};
ghost use Rattle.arrayvec.specs.ArrayVec.{array_vec_len};

use arrayvec::ArrayVec;
use cases_buffers::put_entry;
use cases_common::{decode, number_of, shown, split_once, up_to};
use explain_spec::Explanation;
use model_spec::RuleSet;
use search_spec::{Answer, NO_MOVE, Query, Tally};
use standard_input::{large_buffer, read_full};
use std::io;
use std::iter::repeat_n;
use tables::{KEPT, entry_at};

// The most bytes of a table.
const TABLE_SIZE: usize = 65536;

// The most bytes of a plan buffer, and the most numbers of a list.
const PLAN_SIZE: usize = 4096;

// What the lines before leave: the rule set, the table, the tally and the plan buffer.
#[derive(Drop)]
struct Standing {
    set: RuleSet,
    table: ArrayVec<u8, TABLE_SIZE>,
    tally: Tally,
    plan: ArrayVec<u8, PLAN_SIZE>,
}

// What `q`, `k` and `x` ask. The last text is the room, or the proposal.
#[derive(Drop)]
struct Asked<'a> {
    reach: usize,
    start: ArrayVec<u8, PLAN_SIZE>,
    goal: ArrayVec<u8, PLAN_SIZE>,
    max_moves: usize,
    max_cost: u16,
    step_limit: u32,
    last: &'a [u8],
}

// The numbers of a comma list, at most 4,096, 255 for each that is larger. `-` is the empty list.
fn list_of(text: &[u8]) -> ArrayVec<u8, PLAN_SIZE> {
    let mut list = ArrayVec::new();
    if text.first() != Some(&b'-') {
        let numbers = text
            .split_inclusive(|b| *b == b',')
            .map(|part| number_of(up_to(b',', part)).min(255) as u8);
        let _full = list.extend(numbers);
    }
    list
}

// What a text asks.
fn asked_of(text: &[u8]) -> Asked<'_> {
    let (reach, rest) = split_once(b' ', text);
    let (start, rest) = split_once(b' ', rest);
    let (goal, rest) = split_once(b' ', rest);
    let (moves, rest) = split_once(b' ', rest);
    let (cost, rest) = split_once(b' ', rest);
    let (limit, last) = split_once(b' ', rest);
    Asked {
        reach: number_of(reach),
        start: list_of(start),
        goal: list_of(goal),
        max_moves: number_of(moves),
        max_cost: number_of(cost).min(65535) as u16,
        step_limit: number_of(limit).min(4294967295) as u32,
        last,
    }
}

// The query that is asked, over a table.
fn query_of<'a>(asked: &'a Asked<'_>, table: &'a [u8]) -> Query<'a> {
    Query {
        reach: asked.reach,
        table,
        start: &asked.start,
        goal: &asked.goal,
        max_moves: asked.max_moves,
        max_cost: asked.max_cost,
        step_limit: asked.step_limit,
    }
}

// The tally of a comma list.
fn tally_of(text: &[u8]) -> Tally {
    let (solved, rest) = split_once(b',', text);
    let (unsolvable, rest) = split_once(b',', rest);
    let (limited, rest) = split_once(b',', rest);
    let (refused, steps) = split_once(b',', rest);
    Tally {
        solved: number_of(solved) as u64,
        unsolvable: number_of(unsolvable) as u64,
        limited: number_of(limited) as u64,
        refused: number_of(refused) as u64,
        steps: number_of(steps) as u64,
    }
}

// Puts all entries of a text, as `6:7,16:12`, into the table.
fn put_entries(text: &[u8], table: &mut [u8]) {
    for part in text.split_inclusive(|b| *b == b',') {
        let (index, value) = split_once(b':', up_to(b',', part));
        put_entry(number_of(index), number_of(value), table);
    }
}

// How many marks a table has.
fn marks_of(table: &[u8]) -> usize {
    (0..table.len() / 2)
        .filter(|i| entry_at(table, *i) != KEPT)
        .count()
}

// Makes a table so many bytes of a value, at most 65,536.
fn refill(size: usize, value: u8, table: &mut ArrayVec<u8, TABLE_SIZE>) {
    table.truncate(size);
    let more = size.saturating_sub(table.len());
    let _full = table.extend(repeat_n(value, more));
    table.fill(value);
}

// The answer to `b`; the table that now stands is built over bytes of 170.
fn built(
    rt: &impl Print,
    set: RuleSet,
    text: &[u8],
    table: &mut ArrayVec<u8, TABLE_SIZE>,
) -> io::Result<()>
    ensures { array_vec_len table.new ≤ 65536 }
{
    let (reach, size) = split_once(b' ', text);
    refill(number_of(size), 170, table);
    let answer = builder::build_table(set, number_of(reach), table);
    print!(rt; "{}", answer.outcome)?;
    if answer.outcome == 0 {
        print!(rt; "; {} marks", marks_of(table))?;
    }
    Ok(())
}

// The answer to `t`; the table that now stands is of these entries, the others kept.
fn made(rt: &impl Print, text: &[u8], table: &mut ArrayVec<u8, TABLE_SIZE>) -> io::Result<()>
    ensures { array_vec_len table.new ≤ 65536 }
{
    let (size, entries) = split_once(b' ', text);
    refill(number_of(size), 255, table);
    put_entries(entries, table);
    print!(rt; "{} marks", marks_of(table))
}

// The moves of a plan, with commas between.
fn print_moves(rt: &impl Print, plan: &[u8]) -> io::Result<()> {
    for (i, number) in plan.iter().enumerate() {
        if i != 0 {
            print!(rt; ",")?;
        }
        print!(rt; "{number}")?;
    }
    Ok(())
}

// The numbers of a search's answer.
fn print_numbers(rt: &impl Print, answer: Answer) -> io::Result<()> {
    print!(rt;
        "{}; cost {}; length {}",
        answer.outcome, answer.cost, answer.length
    )?;
    print!(rt; "; steps {}; floor {}", answer.steps, answer.floor)
}

// The answer of a search, and what it left in the plan buffer.
fn print_answer(rt: &impl Print, answer: Answer, plan: &[u8]) -> io::Result<()> {
    let length = answer.length as usize;
    print_numbers(rt, answer)?;
    print!(rt; "; plan ")?;
    print_moves(rt, answers::plan_part(plan, length))?;
    let rest = &plan[length.min(plan.len())..];
    if rest.iter().all(|b| *b == NO_MOVE) {
        return print!(rt; "; rest 255");
    }
    print!(rt; "; rest not 255")
}

// The answer to `q`: a search with a plan buffer of its own, over bytes of 170.
fn print_search(rt: &impl Print, standing: &Standing, asked: &Asked<'_>) -> io::Result<()> {
    let mut space = [170; PLAN_SIZE];
    let plan = &mut space[..number_of(asked.last).min(PLAN_SIZE)];
    let answer = search::search(standing.set, query_of(asked, &standing.table), plan);
    print_answer(rt, answer, plan)
}

// The counts of a tally, with commas between.
fn print_tally(rt: &impl Print, tally: Tally) -> io::Result<()> {
    print!(rt; "{},{},{},", tally.solved, tally.unsolvable, tally.limited)?;
    print!(rt; "{},{}", tally.refused, tally.steps)
}

// The answer to `k`: a search that updates the tally, with the plan buffer as it is.
fn print_tallied_search(
    rt: &impl Print,
    standing: &mut Standing,
    asked: &Asked<'_>,
) -> io::Result<()> {
    let room = number_of(asked.last).min(standing.plan.len());
    let plan = &mut standing.plan[..room];
    let answer = tallied_search::search_with_tally(
        standing.set,
        query_of(asked, &standing.table),
        plan,
        &mut standing.tally,
    );
    print_answer(rt, answer, plan)?;
    print!(rt; "; tally ")?;
    print_tally(rt, standing.tally)
}

// The outcome and the reason of an explanation, with what the reason names.
fn print_reason(rt: &impl Print, answer: Explanation) -> io::Result<()> {
    print!(rt;
        "{}; reason {}; place {}",
        answer.outcome, answer.reason, answer.place
    )?;
    print!(rt; "; costs {},{}", answer.cost, answer.plan_cost)
}

// The marked segment of an explanation, with its witness.
fn print_segment(rt: &impl Print, answer: Explanation) -> io::Result<()> {
    print!(rt;
        "; segment {},{}",
        answer.segment_end, answer.segment_length
    )?;
    print!(rt; "; witness {}: ", answer.witness_length)?;
    print_moves(rt, &answer.witness)
}

// The answer to `x`: why the proposal is not the plan.
fn print_explanation(rt: &impl Print, standing: &Standing, asked: &Asked<'_>) -> io::Result<()> {
    let proposal = list_of(asked.last);
    let answer = explain::explain(standing.set, query_of(asked, &standing.table), &proposal);
    print_reason(rt, answer)?;
    print_segment(rt, answer)
}

// The answer to `q`, `k` or `x`. It stands apart, so that no other case clears the lists of what is asked.
#[inline(never)]
fn print_asked(rt: &impl Print, standing: &mut Standing, verb: u8, text: &[u8]) -> io::Result<()> {
    let asked = asked_of(text);
    match verb {
        b'k' => print_tallied_search(rt, standing, &asked),
        b'x' => print_explanation(rt, standing, &asked),
        _ => print_search(rt, standing, &asked),
    }
}

// The answer to `u`.
fn print_updates(rt: &impl Print, standing: &mut Standing, text: &[u8]) -> io::Result<()> {
    let (outcome, steps) = split_once(b' ', text);
    let outcome = number_of(outcome).min(255) as u8;
    let steps = number_of(steps).min(4294967295) as u32;
    print!(rt; "by value ")?;
    print_tally(rt, tally::tallied(standing.tally, outcome, steps))?;
    tally::update(&mut standing.tally, outcome, steps);
    print!(rt; "; by reference ")?;
    print_tally(rt, standing.tally)
}

// The answer to `p`.
fn print_part(rt: &impl Print, plan: &[u8], text: &[u8]) -> io::Result<()> {
    let (length, room) = split_once(b' ', text);
    let part = &plan[..number_of(room).min(plan.len())];
    print!(rt; "part ")?;
    print_moves(rt, answers::plan_part(part, number_of(length)))
}

// The set of a text, with its outcome printed.
fn read_set(rt: &impl Print, text: &[u8]) -> io::Result<RuleSet> {
    let mut file = large_buffer();
    let size = decode(text, &mut file);
    let reading = reader::read(&file[..size]);
    print!(rt; "{}", reading.outcome)?;
    Ok(reading.set)
}

// The set with two of its numbers changed, and whether it is valid printed.
fn changed_set(rt: &impl Print, set: RuleSet, text: &[u8]) -> io::Result<RuleSet> {
    let (positions, count) = split_once(b',', text);
    let mut other = set;
    other.positions = (number_of(positions) % 256) as u8;
    other.count = (number_of(count) % 256) as u8;
    if validity::is_valid(other) {
        print!(rt; "valid")?;
    } else {
        print!(rt; "not valid")?;
    }
    Ok(other)
}

// The answer to a case, by its letter.
fn answer(rt: &impl Print, standing: &mut Standing, verb: u8, text: &[u8]) -> io::Result<()> {
    match verb {
        b'f' => standing.set = read_set(rt, text)?,
        b's' => standing.set = changed_set(rt, standing.set, text)?,
        b'b' => built(rt, standing.set, text, &mut standing.table)?,
        b't' => made(rt, text, &mut standing.table)?,
        b'c' => {
            standing.tally = tally_of(text);
            print!(rt; "tally ")?;
            print_tally(rt, standing.tally)?;
        }
        b'u' => print_updates(rt, standing, text)?,
        b'p' => print_part(rt, &standing.plan, text)?,
        b'q' | b'k' | b'x' => print_asked(rt, standing, verb, text)?,
        _ => {}
    }
    Ok(())
}

// The line, cut at 120 bytes.
fn print_line(rt: &impl Print, line: &[u8]) -> io::Result<()> {
    let (front, dots) = shown(line);
    rt.write_all(front)?;
    rt.write_all(dots)
}

// One case, or a heading, on a line of the input.
fn run(rt: &impl Print, standing: &mut Standing, line: &[u8]) -> io::Result<()> {
    let [verb, _, text @ ..] = line else {
        return Ok(());
    };
    print_line(rt, line)?;
    if *verb != b'#' {
        print!(rt; ": ")?;
        answer(rt, standing, *verb, text)?;
    }
    print!(rt; "\n")
}

// The cases of all lines. Before the first stand the empty set, no table, a tally of 0 throughout and bytes of 170.
fn run_lines(rt: &impl Print, input: &[u8]) -> io::Result<()> {
    let mut standing = Standing {
        set: reader::read(b"").set,
        table: ArrayVec::new(),
        tally: tally_of(b""),
        plan: ArrayVec::from([170; PLAN_SIZE]),
    };
    for line in input.split(|b| *b == b'\n') {
        run(rt, &mut standing, line)?;
    }
    Ok(())
}

fn main(rt: HostRuntime) -> io::Result<()> {
    let mut input = [0u8; 131072];
    let n = read_full(&mut rt.stdin(), &mut input)?;
    run_lines(&rt, &input[..n])
}
