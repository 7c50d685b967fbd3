// Pruning tables of a rule text's set. 1 to 4 of the text come before all else.
#![tactic(auto)]

ghost use Rattle.std.specs.Prelude.{◌≡◌, length};
ghost use Rattle.planner_spec.specs.TextTables.{text_table_size, text_build_answer, text_built_buffer};
ghost use Rattle.planner_spec.specs.TextTables.{text_check_answer};
ghost use Rattle.planner_spec.specs.TextTables.{TextSizeMeaning, TextBuildMeaning, TextCheckMeaning};

use buffers::fill_from;
use reader::read;
use tables_spec::TableSize;
use unions::refused;
use unions_spec::TableAnswer;

// How long a table is; a refused text has no length.
pub fn table_size(text: &[u8], reach: usize) -> TableSize
    ensures { (result ≡ text_table_size text.now reach)
        × TextSizeMeaning text.now reach result }
{
    let file = read(text);
    if file.outcome != 0 {
        return TableSize {
            outcome: file.outcome,
            length: 0,
        };
    }
    table_sizes::table_size(file.set, reach)
}

// Builds the table, or zeroes it; tells the positions that its marked sequences read and write.
pub fn build_table(text: &[u8], reach: usize, table: &mut [u8]) -> TableAnswer
    ensures { let size = length table.old in
        (result ≡ text_build_answer text.now reach size)
        × (table.new ≡ text_built_buffer text.now reach size)
        × TextBuildMeaning text.now reach size result table.new }
{
    let file = read(text);
    if file.outcome != 0 {
        fill_from(table, 0, 0);
        return refused(file.outcome);
    }
    builder::build_table(file.set, reach, table)
}

// Checks a table, whoever made it; tells the positions that its marked sequences read and write.
pub fn check_table(text: &[u8], reach: usize, table: &[u8]) -> TableAnswer
    ensures { (result ≡ text_check_answer text.now reach table.now)
        × TextCheckMeaning text.now reach table.now result }
{
    let file = read(text);
    let refusal = file.outcome;
    if refusal != 0 {
        return refused(refusal);
    }
    checker::check_table(file.set, reach, table)
}
