// The lines of a mark in a listing, laid over a page.
#![tactic(auto)]

ghost use Rattle.std.specs.Prelude.{◌≡◌};
ghost use Rattle.output_laws.specs.How.Overlay.{LaidOn};
ghost use Rattle.report_laws.specs.How.Marks.{index_touched, entry_lines};

use macros_spec::Touched;
use model_spec::RuleSet;
use output::Page;
use position_output::put_positions;
use sequence_output::put_sequence_line;
use sequences::profile_at;
use tables::KEPT;
use touched::touched;
use wide_positions::wide_positions;

// The positions that the sequence of an index reads and writes.
fn touched_at(set: RuleSet, index: usize) -> Touched
    ensures { result ≡ index_touched set index }
{
    let own = profile_at(set, index);
    let vectors = own.vectors;
    touched(wide_positions(set), vectors)
}

// Lays the lines of a mark: a sequence, the witness that its entry names, and the positions that the sequence reads
// and writes. Nothing where the sequence is kept.
pub fn put_mark(page: &mut Page<'_>, set: RuleSet, index: usize, entry: usize)
    ensures { LaidOn page.old.at (entry_lines set index entry) page.old.text page.new.at page.new.text }
{
    if entry == KEPT {
        return;
    }
    let positions = touched_at(set, index);
    put_sequence_line(page, b"drop=", set.count, index);
    put_sequence_line(page, b"for=", set.count, entry);
    put_positions(page, b"reads=", positions.reads);
    put_positions(page, b"moves=", positions.writes);
}
