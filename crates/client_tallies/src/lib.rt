// The clients' tallies: one list, updated where the caller keeps it.
#![tactic(auto)]

ghost use Rattle.std.specs.Prelude.{◌≡◌, length};
ghost use Rattle.clients_spec.specs.Clients.{client_refusal, client_tallied, UpdateMeaning};

use search_spec::Tally;
use tally::update;

// At most so many clients share a list.
const MAX_CLIENTS: usize = 16;

// 19 where the list has not 1 to 16 tallies, or the client, counted from 1, is not in it; else 0.
pub fn client_refusal(count: usize, client: usize) -> u8
    ensures { result ≡ client_refusal count client }
{
    if count <= MAX_CLIENTS && 1 <= client && client <= count {
        0
    } else {
        19
    }
}

// One client's tally after a query, in the list that the caller keeps; the others stay. Gives 19, and changes none,
// where the client is not listed.
pub fn update_client(tallies: &mut [Tally], client: usize, outcome: u8, steps: u32) -> u8
    ensures { let before = tallies.old in
        let after = tallies.new in
        (result ≡ client_refusal (length before) client)
        × (after ≡ client_tallied before client outcome steps)
        × UpdateMeaning client outcome steps result before after }
{
    let refusal = client_refusal(tallies.len(), client);
    if refusal != 0 {
        return refusal;
    }
    update(&mut tallies[client - 1], outcome, steps);
    0
}
