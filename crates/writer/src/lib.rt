// The writer of rule files.
#![tactic(auto)]

ghost use Rattle.std.specs.Prelude.{◌≡◌, length, MatchResult};
ghost use Rattle.refusals_spec.specs.Numbers.{number_of};
ghost use Rattle.model_spec.specs.How.Buffers.{filled_from};
ghost use Rattle.files_spec.specs.Meaning.{WriteMeaning};
ghost use Rattle.files_spec.specs.Writing.{written, written_buffer};

use buffers::fill_from;
use file_output::put_file;
use files_spec::Written;
use model_spec::RuleSet;
use output::Page;
use refusals::number_of;
use refusals_spec::Refusal;
use validity::is_valid;

// Lays the file of a set over the text, whatever stands after it: the file's length, or why there is no file.
fn lay(set: RuleSet, text: &mut [u8]) -> Result<usize, Refusal>
    ensures { let answer = written set (length text.old) in
        let buffer = written_buffer set (length text.old) in
        MatchResult result
        (λ end. (0 ≡ answer.outcome) × (end ≡ answer.length) × (filled_from 0 end text.new ≡ buffer))
        (λ refusal. (number_of refusal ≡ answer.outcome) × (0 ≡ answer.length)
        × (filled_from 0 0 text.new ≡ buffer)) }
{
    if !is_valid(set) {
        return Err(Refusal::RuleSet);
    }
    let mut page = Page::new(text);
    put_file(&mut page, set);
    let end = page.at;
    if text.len() < end {
        return Err(Refusal::TextRoom);
    }
    Ok(end)
}

// Writes the file of a set into the text, and zeros after it; zeros alone when refused.
pub fn write(set: RuleSet, text: &mut [u8]) -> Written
    ensures { let room = length text.old in
        (result ≡ written set room)
        × (text.new ≡ written_buffer set room)
        × WriteMeaning set room result text.new }
{
    let (outcome, length) = match lay(set, text) {
        Ok(end) => (0, end),
        Err(refusal) => (number_of(refusal), 0),
    };
    fill_from(text, length, 0);
    Written { outcome, length }
}
