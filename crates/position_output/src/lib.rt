// The positions of a set, laid over a page.
#![tactic(auto)]

ghost use Rattle.std.specs.Prelude.{[], ◌∷◌, ◌++◌};
ghost use Rattle.files_spec.specs.Text.{line_feed, comma_list};
ghost use Rattle.output_laws.specs.How.Overlay.{LaidOn};
ghost use Rattle.report_spec.specs.Listing.{position_items};

use list_output::put_numbers;
use model_spec::PLACE_COUNT;
use output::Page;

// Lays a line with a key and the positions of a set, in rising order.
pub fn put_positions(page: &mut Page<'_>, key: &[u8], members: u16)
    ensures { LaidOn page.old.at (key.now ++ comma_list (position_items members) ++ (line_feed ∷ []))
        page.old.text page.new.at page.new.text }
{
    // an array and a count: there is no heap, and a public function may ask nothing of an iterator that it is given
    let mut positions = [0u8; PLACE_COUNT];
    let mut count: usize = 0;
    for k in 0..PLACE_COUNT {
        if (members >> k) % 2 == 1 {
            positions[count] = k as u8 + 1;
            count += 1;
        }
    }
    page.put_word(key);
    put_numbers(page, &positions, count);
}
