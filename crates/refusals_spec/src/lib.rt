// The refusals: why a call gives no answer. A type, and its numbers.
#![tactic(auto)]

// The cause for which a call is refused.
#[derive(Clone, Copy, Debug, PartialEq, Eq)]
pub enum Refusal {
    // a rule file: a byte does not fit, the file ends early, or bytes are left over
    Form,
    // a rule file: a well-formed number outside its limit
    Limit,
    // a rule file: a variable out of place
    Place,
    // a rule file: two rules with equal cost, condition and effect
    Duplicates,
    // the reach is not 1 to 3
    Reach,
    // the table's length is not that of its reach
    TableLength,
    // the rule set is not valid
    RuleSet,
    // the buffer is shorter than the file, or than a macro
    TextRoom,
    // the start has a wrong length or a value not below its size
    Start,
    // the goal likewise, save 255
    Goal,
    // more than 32 moves
    Moves,
    // the plan buffer is shorter than the move bound
    PlanRoom,
    // a move that is no rule's number
    UnknownMove,
    // a mark of the table is not justified
    Table,
    // no state admits the sequence
    NotAdmitted,
    // the query names no client of the list
    Client,
}
