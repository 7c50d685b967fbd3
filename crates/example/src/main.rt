// Reads a rule file on standard input, and prints the cost and the length of the plan from 0,0,0 to 3,1,1.
#![tactic(auto)]

use search_spec::Query;
use standard_input::{large_buffer, read_full};
use std::io;

fn main(rt: HostRuntime) -> io::Result<()> {
    let mut text = large_buffer();
    let n = read_full(&mut rt.stdin(), &mut text)?;
    let file = reader::read(&text[..n]);
    // two bytes for each sequence of at most two of four rules
    let mut table = [0u8; 42];
    builder::build_table(file.set, 2, &mut table);
    let mut plan = [0u8; 3];
    let query = Query {
        reach: 2,
        table: &table,
        start: &[0, 0, 0],
        goal: &[3, 1, 1],
        max_moves: 3,
        max_cost: 9,
        step_limit: 5,
    };
    let answer = search::search(file.set, query, &mut plan);
    let moves = answers::plan_part(&plan, answer.length as usize);
    rt.print(answer.cost)?;
    rt.print(moves.len())
}
