// The rule numbers of a sequence, laid over a page.
#![tactic(auto)]

ghost use Rattle.std.specs.Prelude.{[], ◌∷◌, ◌++◌};
ghost use Rattle.files_spec.specs.Text.{line_feed};
ghost use Rattle.output_laws.specs.How.Overlay.{LaidOn};
ghost use Rattle.report_laws.specs.How.Marks.{sequence_text};

use number_output::put_number;
use output::Page;

// Lays the rule numbers of the sequence of an index, none, one or two. Of an index that no sequence of two rules has,
// the first number is taken round.
fn put_sequence(page: &mut Page<'_>, count: u8, index: usize)
    ensures { LaidOn page.old.at (sequence_text count index) page.old.text page.new.at page.new.text }
{
    let many = (count as usize).max(1);
    if index < 1 {
        return;
    }
    if index <= many {
        return put_number(page, index);
    }
    let before = index - 1;
    put_number(page, (before / many - 1) % many + 1);
    page.put(b',');
    put_number(page, before % many + 1);
}

// Lays a line with a key and the sequence of an index.
pub fn put_sequence_line(page: &mut Page<'_>, key: &[u8], count: u8, index: usize)
    ensures { LaidOn page.old.at (key.now ++ sequence_text count index ++ (line_feed ∷ []))
        page.old.text page.new.at page.new.text }
{
    page.put_word(key);
    put_sequence(page, count, index);
    page.put(b'\n');
}
