// The reader of rule files: what its lines give, then the end of the text and duplicates.
#![tactic(auto)]

ghost use Rattle.std.specs.Prelude.{◌≡◌};
ghost use Rattle.files_spec.specs.Reading.{reading};
ghost use Rattle.files_spec.specs.Meaning.{ReadMeaning};
ghost use Rattle.reader_laws.specs.How.Found.{reading_as};

use blanks::empty_set;
use files_spec::Reading;
use model_spec::RuleSet;
use read_file::file_lines;
use refusals::number_of;
use refusals_spec::Refusal;
use validity::is_valid;

// The set of a rule file, or its first fault: a line's, then bytes left over, then duplicates.
fn set_of(text: &[u8]) -> Result<RuleSet, Refusal>
    ensures { reading text.now ≡ reading_as result }
{
    let (set, rest) = file_lines(text)?;
    if !rest.is_empty() {
        return Err(Refusal::Form);
    }
    // the lines have no fault, so only duplicates can make the set invalid
    if !is_valid(set) {
        return Err(Refusal::Duplicates);
    }
    Ok(set)
}

// Reads a rule file: its set, or the first fault's number and the empty set.
pub fn read(text: &[u8]) -> Reading
    ensures { (result ≡ reading text.now)
        × ReadMeaning text.now result }
{
    match set_of(text) {
        Ok(set) => Reading { outcome: 0, set },
        Err(refusal) => Reading {
            outcome: number_of(refusal),
            set: empty_set(),
        },
    }
}
