// A rule file, laid over a page.
#![tactic(auto)]

ghost use Rattle.std.specs.Prelude.{take};
ghost use Rattle.theory_spec.specs.Lists.{flat};
ghost use Rattle.files_spec.specs.File.{rule_text, render};
ghost use Rattle.output_laws.specs.How.Overlay.{LaidOn};

use list_output::put_numbers;
use model_spec::{RULE_PLACES, RuleSet};
use number_output::put_number_line;
use output::Page;
use rule_output::put_rule;

// Lays the lines of all rules.
fn put_rules(page: &mut Page<'_>, set: RuleSet)
    ensures { LaidOn page.old.at (flat (rule_text set.positions) (take set.count set.rules))
        page.old.text page.new.at page.new.text }
{
    let count = (set.count as usize).min(RULE_PLACES);
    for rule in &set.rules[..count] {
        put_rule(page, *rule, set.positions);
    }
}

// Lays the whole file of a set.
pub fn put_file(page: &mut Page<'_>, set: RuleSet)
    ensures { LaidOn page.old.at (render set) page.old.text page.new.at page.new.text }
{
    put_number_line(page, b"positions=", set.positions as usize);
    page.put_word(b"sizes=");
    put_numbers(page, &set.sizes, set.positions as usize);
    put_number_line(page, b"rules=", set.count as usize);
    put_rules(page, set);
}
