// The numbers of refusals.
#![tactic(auto)]

ghost use Rattle.std.specs.Prelude.{◌≡◌};
ghost use Rattle.refusals_spec.specs.Numbers.{number_of};

use refusals_spec::Refusal;

// A refusal's outcome number.
pub fn number_of(refusal: Refusal) -> u8
    ensures { result ≡ number_of refusal }
{
    match refusal {
        Refusal::Form => 1,
        Refusal::Limit => 2,
        Refusal::Place => 3,
        Refusal::Duplicates => 4,
        Refusal::Reach => 5,
        Refusal::TableLength => 6,
        Refusal::RuleSet => 7,
        Refusal::TextRoom => 8,
        Refusal::Start => 9,
        Refusal::Goal => 10,
        Refusal::Moves => 11,
        Refusal::PlanRoom => 12,
        Refusal::UnknownMove => 13,
        Refusal::Table => 14,
        Refusal::NotAdmitted => 17,
        Refusal::Client => 19,
    }
}
