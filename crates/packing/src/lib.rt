// Answers of several parts as one number, for the C entries.
#![tactic(auto)]

ghost use Rattle.std.specs.Prelude.{◌≡◌, ◌%◌};
ghost use Rattle.planner_spec.specs.PackedLength.{packed_length};
ghost use Rattle.planner_spec.specs.How.LengthLimit.{length_limit};
ghost use Rattle.planner_spec.specs.Packed.{packed};
ghost use Rattle.planner_spec.specs.PackedTable.{packed_table};

use search_spec::Answer;
use unions_spec::TableAnswer;

// One more than the longest length that has room above the low byte.
const LENGTH_LIMIT: u64 = 72057594037927936;

// The outcome in the low byte, the length above it: of a longer one its low 56 bits.
pub fn pack_length(outcome: u8, size: usize) -> u64
    ensures { result ≡ packed_length outcome (size % length_limit) }
{
    (outcome as u64) + 256 * ((size as u64) % LENGTH_LIMIT)
}

// An answer as one number.
pub fn pack(answer: Answer) -> u64
    ensures { result ≡ packed answer }
{
    (answer.outcome as u64)
        + 256 * (answer.length as u64)
        + 65536 * (answer.cost as u64)
        + 4294967296 * (answer.steps as u64)
}

// The answer of the builder or of the check as one number.
pub fn pack_table(answer: TableAnswer) -> u64
    ensures { result ≡ packed_table answer }
{
    let touched = answer.touched;
    (answer.outcome as u64) + 65536 * (touched.reads as u64) + 4294967296 * (touched.writes as u64)
}
