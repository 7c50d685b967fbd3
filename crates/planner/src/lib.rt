// The entries that C programs call. All take a rule text; 1 to 4 of the text come before all else.
#![tactic(auto)]

mod explanation;
mod floor;

ghost use Rattle.std.specs.Prelude.{◌≡◌, ◌/◌, ◌%◌, length};
ghost use Rattle.files_spec.specs.Reading.{reading};
ghost use Rattle.files_spec.specs.Meaning.{OutcomeMeaning};
ghost use Rattle.files_spec.specs.declared.Written.{Written};
ghost use Rattle.tables_spec.specs.declared.TableSize.{TableSize};
ghost use Rattle.search_spec.specs.Query.{asked};
ghost use Rattle.search_spec.specs.Searched.{Searched};
ghost use Rattle.planner_spec.specs.Packed.{unpacked, searched_text, packed_search};
ghost use Rattle.planner_spec.specs.Rewriting.{rewritten_buffer, packed_rewritten, RewriteMeaning};
ghost use Rattle.planner_spec.specs.PackedTable.{packed_table, unpacked_table};
ghost use Rattle.planner_spec.specs.TextTables.{packed_table_size, text_build_answer, text_built_buffer};
ghost use Rattle.planner_spec.specs.TextTables.{text_check_answer};
ghost use Rattle.planner_spec.specs.TextTables.{TextSizeMeaning, TextBuildMeaning, TextCheckMeaning};
ghost use Rattle.planner_spec.specs.TextMacro.{text_macro, macro_buffer, TextMacroMeaning};
ghost use Rattle.planner_spec.specs.TextSearch.{TextSearchMeaning};

use packing::{pack, pack_length, pack_table};
use search_spec::Query;
use text_search::search_text;

// Judges a rule file for C: 1 to 4, or 0.
#[unsafe(no_mangle)]
pub extern "C" fn planner_read(text: &[u8]) -> u8
    ensures { (result ≡ (reading text.now).outcome)
        × OutcomeMeaning text.now result }
{
    let judged = reader::read(text);
    judged.outcome
}

// Reads a rule file and writes it again, or zeroes the buffer: the outcome in the low byte, the length above it.
#[unsafe(no_mangle)]
pub extern "C" fn planner_rewrite(text: &[u8], out: &mut [u8]) -> u64
    ensures { (let room = length out.old in
        let answer : Written = record { outcome = result % 256; length = result / 256 } in
        (result ≡ packed_rewritten text.now room)
        × (out.new ≡ rewritten_buffer text.now room)
        × RewriteMeaning text.now room answer out.new) }
{
    let answer = text_files::rewrite(text, out);
    pack_length(answer.outcome, answer.length)
}

// How long a table is: the outcome in the low byte, the length in bytes above it.
#[unsafe(no_mangle)]
pub extern "C" fn planner_table_size(rules: &[u8], reach: usize) -> u64
    ensures { (let answer : TableSize = record { outcome = result % 256; length = result / 256 } in
        (result ≡ packed_table_size rules.now reach)
        × TextSizeMeaning rules.now reach answer) }
{
    let size = text_tables::table_size(rules, reach);
    pack_length(size.outcome, size.length)
}

// Builds the table, or zeroes it: the outcome in the low byte, the positions that the marked sequences read in bits 16
// to 31, those that they write in bits 32 to 47.
#[unsafe(no_mangle)]
pub extern "C" fn planner_build_table(rules: &[u8], table: &mut [u8], reach: usize) -> u64
    ensures { let size = length table.old in
        (result ≡ packed_table (text_build_answer rules.now reach size))
        × (table.new ≡ text_built_buffer rules.now reach size)
        × TextBuildMeaning rules.now reach size (unpacked_table result) table.new }
{
    let answer = text_tables::build_table(rules, reach, table);
    pack_table(answer)
}

// Checks a table, whoever made it; the answer is packed as the builder's.
#[unsafe(no_mangle)]
pub extern "C" fn planner_check_table(rules: &[u8], table: &[u8], reach: usize) -> u64
    ensures { (result ≡ packed_table (text_check_answer rules.now reach table.now))
        × TextCheckMeaning rules.now reach table.now (unpacked_table result) }
{
    let answer = text_tables::check_table(rules, reach, table);
    pack_table(answer)
}

// The macro of a sequence of rule numbers, with the positions that it reads and writes, as bytes; zeros when refused,
// also where the buffer is too short.
#[unsafe(no_mangle)]
pub extern "C" fn planner_macro(rules: &[u8], moves: &[u8], out: &mut [u8]) -> u8
    ensures { let room = length out.old in
        let answer = text_macro rules.now moves.now room in
        (result ≡ answer.outcome)
        × (out.new ≡ macro_buffer room answer)
        × TextMacroMeaning rules.now moves.now room result out.new }
{
    text_macros::macro_of(rules, moves, out)
}

// Searches for the cheapest plan of a query; the answer is packed, but for its floor.
#[unsafe(no_mangle)]
pub extern "C" fn planner_search(
    rules: &[u8],
    table: &[u8],
    start: &[u8],
    goal: &[u8],
    plan: &mut [u8],
    reach: usize,
    max_moves: usize,
    max_cost: u16,
    step_limit: u32,
) -> u64
    ensures { (let query = asked reach table.now start.now goal.now
        max_moves max_cost step_limit in
        let room = length plan.old in
        let floor = (searched_text rules.now query room).answer.floor in
        let found : Searched = record { answer = unpacked floor result; plan = plan.new } in
        (result ≡ packed_search rules.now query room)
        × (plan.new ≡ (searched_text rules.now query room).plan)
        × TextSearchMeaning rules.now query room found) }
{
    // the C interface passes the parts of a query one by one
    let query = Query {
        reach,
        table,
        start,
        goal,
        max_moves,
        max_cost,
        step_limit,
    };
    let answer = search_text(rules, query, plan);
    pack(answer)
}
