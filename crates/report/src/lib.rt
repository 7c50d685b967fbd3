// The listing of a rule file's pruning table.
#![tactic(auto)]

ghost use Rattle.std.specs.Prelude.{◌≡◌, cond, [], ◌∷◌, ◌*◌, eqb, length};
ghost use Rattle.model_spec.specs.Validity.{Valid};
ghost use Rattle.files_spec.specs.Text.{numeral, line};
ghost use Rattle.output_laws.specs.How.Overlay.{LaidOn};
ghost use Rattle.tables_spec.specs.Table.{table_entries};
ghost use Rattle.report_spec.specs.Listing.{listing_of};
ghost use Rattle.report_spec.specs.Report.{report_length, reported, ReportMeaning};

use buffers::fill_from;
use builder::build_table;
use model_spec::RuleSet;
use number_output::put_number_line;
use output::Page;
use table_output::put_table;
use tables::sequence_count;

// Lays the listing of a set, with its table for reach 2 built where there is room for it.
fn put_built(page: &mut Page<'_>, set: RuleSet, table: &mut [u8])
    requires { Valid set
        × (length table.old ≡ 2 * table_entries set 2) }
    ensures { LaidOn page.old.at (listing_of set) page.old.text page.new.at page.new.text }
{
    build_table(set, 2, table);
    put_table(page, set, table);
}

// Lays the listing of a set. At most 993 sequences have at most two of 31 rules, so 1,986 bytes hold every table.
fn put_set(page: &mut Page<'_>, set: RuleSet)
    requires { Valid set }
    ensures { LaidOn page.old.at (listing_of set) page.old.text page.new.at page.new.text }
{
    let size = 2 * sequence_count(set.count, 2);
    let mut table = [0u8; 1986];
    put_built(page, set, &mut table[..size]);
}

// Lays the listing of what reading a file gave: a refused one's number alone. The number and the set are those of
// `reader::read`, whose `Reading` may not change.
fn put_listing(page: &mut Page<'_>, outcome: u8, set: RuleSet)
    requires { outcome ≡ 0 → Valid set }
    ensures { LaidOn page.old.at
        (cond (eqb outcome 0) (listing_of set) (line "refused=" (numeral outcome ∷ [])))
        page.old.text page.new.at page.new.text }
{
    if outcome != 0 {
        return put_number_line(page, b"refused=", outcome as usize);
    }
    put_set(page, set);
}

// Lists a rule file at reach 2 into the buffer, and zeros after it: the listing's length; 0 and zeros alone where the
// buffer is shorter.
pub fn report(text: &[u8], out: &mut [u8]) -> usize
    ensures { let file = text.now in
        let room = length out.old in
        (result ≡ report_length file room)
        × (out.new ≡ reported file room)
        × ReportMeaning file room result out.new }
{
    let reading = reader::read(text);
    let mut page = Page::new(out);
    put_listing(&mut page, reading.outcome, reading.set);
    let end = page.at;
    if out.len() < end {
        fill_from(out, 0, 0);
        return 0;
    }
    fill_from(out, end, 0);
    end
}
