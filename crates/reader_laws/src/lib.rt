// How the reader goes about it: parts that its functions promise, and laws.
#![tactic(auto)]

use model_spec::PLACE_COUNT;

// The lines that list an item for each position, with what their items are judged by.
#[derive(Clone, Copy)]
pub enum Line {
    Sizes,
    Condition {
        sizes: [u8; PLACE_COUNT],
    },
    Effect {
        sizes: [u8; PLACE_COUNT],
        condition: [u8; PLACE_COUNT],
    },
}
