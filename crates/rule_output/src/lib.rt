// The lines of a rule in a rule file, laid over a page.
#![tactic(auto)]

ghost use Rattle.std.specs.Prelude.{◌++◌};
ghost use Rattle.files_spec.specs.File.{entry_text, rule_text};
ghost use Rattle.output_laws.specs.How.Overlay.{LaidOn, list_text};

use list_output::put_entries;
use model_spec::Rule;
use number_output::put_number_line;
use output::Page;

// Lays a line with a key and so many of the entries.
fn put_entries_line(page: &mut Page<'_>, key: &[u8], entries: &[u8], count: usize)
    ensures { LaidOn page.old.at (key.now ++ list_text entry_text count entries.now)
        page.old.text page.new.at page.new.text }
{
    page.put_word(key);
    put_entries(page, entries, count);
}

// Lays the lines of a rule.
pub fn put_rule(page: &mut Page<'_>, rule: Rule, positions: u8)
    ensures { LaidOn page.old.at (rule_text positions rule) page.old.text page.new.at page.new.text }
{
    put_number_line(page, b"cost=", rule.cost as usize);
    put_entries_line(page, b"if=", &rule.condition, positions as usize);
    put_entries_line(page, b"then=", &rule.effect, positions as usize);
}
