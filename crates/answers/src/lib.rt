// What a caller does with a search's answer: it takes the plan from its buffer.
#![tactic(auto)]

ghost use Rattle.std.specs.Prelude.{◌≡◌};
ghost use Rattle.search_spec.specs.PlanPart.{plan_part};

// The plan handed back (document 01: the second call): the front part of the caller's own plan buffer, from its start;
// an empty one where the count is above the buffer's length.
pub fn plan_part(plan: &[u8], count: usize) -> &[u8]
    ensures { (result.now ≡ plan_part plan.now count)
        × (result.ref_ptr ≡ plan.entry.ref_ptr) }
{
    if count <= plan.len() {
        return &plan[..count];
    }
    &plan[..0]
}
