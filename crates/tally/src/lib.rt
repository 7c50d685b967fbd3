// The tally of a caller's queries: updated by value, and where the caller keeps it.
#![tactic(auto)]

ghost use Rattle.std.specs.Prelude.{◌≡◌};
ghost use Rattle.search_spec.specs.Tallies.{raised, tallied_of, TallyMeaning};

use search_spec::Tally;

// A count raised by a number, at most to its top.
fn raised(count: u64, more: u64) -> u64
    ensures { result ≡ raised count more }
{
    count.saturating_add(more)
}

// The tally after a query: 1 more in the count of its outcome, and its steps in their sum. A count stays at its top.
pub fn tallied(tally: Tally, outcome: u8, steps: u32) -> Tally
    ensures { (result ≡ tallied_of tally outcome steps)
        × TallyMeaning outcome steps tally result }
{
    let summed = Tally {
        steps: raised(tally.steps, u64::from(steps)),
        ..tally
    };
    match outcome {
        0 => Tally {
            solved: raised(tally.solved, 1),
            ..summed
        },
        15 => Tally {
            unsolvable: raised(tally.unsolvable, 1),
            ..summed
        },
        16 | 18 => Tally {
            limited: raised(tally.limited, 1),
            ..summed
        },
        _ => Tally {
            refused: raised(tally.refused, 1),
            ..summed
        },
    }
}

// The same where the caller keeps the tally.
pub fn update(tally: &mut Tally, outcome: u8, steps: u32)
    ensures { (tally.new ≡ tallied_of tally.old outcome steps)
        × TallyMeaning outcome steps tally.old tally.new }
{
    *tally = tallied(*tally, outcome, steps);
}
