// The listing of a table, laid over a page.
#![tactic(auto)]

ghost use Rattle.std.specs.Prelude.{◌≡◌, length};
ghost use Rattle.output_laws.specs.How.Overlay.{LaidOn};
ghost use Rattle.report_laws.specs.How.Marks.{table_marks, marks_text, table_text};

use mark_output::put_mark;
use model_spec::RuleSet;
use number_output::put_number_line;
use output::Page;
use tables::{KEPT, entry_at};

// How many sequences a table marks.
fn count_marks(table: &[u8]) -> usize
    ensures { result ≡ length (table_marks table.now) }
{
    (0..table.len() / 2)
        .filter(|index| entry_at(table, *index) != KEPT)
        .count()
}

// Lays the lines of all marks.
fn put_marks(page: &mut Page<'_>, set: RuleSet, table: &[u8])
    ensures { LaidOn page.old.at (marks_text set table.now) page.old.text page.new.at page.new.text }
{
    for index in 0..table.len() / 2 {
        put_mark(page, set, index, entry_at(table, index));
    }
}

// Lays the listing of a table of reach 2 for a set; more than 999 marks are counted as 999.
pub fn put_table(page: &mut Page<'_>, set: RuleSet, table: &[u8])
    ensures { LaidOn page.old.at (table_text set table.now) page.old.text page.new.at page.new.text }
{
    put_number_line(page, b"reach=", 2);
    put_number_line(page, b"rules=", set.count as usize);
    put_number_line(page, b"marks=", count_marks(table));
    put_marks(page, set, table);
}
