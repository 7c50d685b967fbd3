// A rule file read and written again.
#![tactic(auto)]

ghost use Rattle.std.specs.Prelude.{◌≡◌, length};
ghost use Rattle.planner_spec.specs.Rewriting.{rewritten, rewritten_buffer, RewriteMeaning};

use buffers::fill_from;
use files_spec::Written;

// Reads a rule file and writes it again; zeros alone when refused.
pub fn rewrite(text: &[u8], out: &mut [u8]) -> Written
    ensures { let room = length out.old in
        (result ≡ rewritten text.now room)
        × (out.new ≡ rewritten_buffer text.now room)
        × RewriteMeaning text.now room result out.new }
{
    let file = reader::read(text);
    let refusal = file.outcome;
    if refusal != 0 {
        fill_from(out, 0, 0);
        return Written {
            outcome: refusal,
            length: 0,
        };
    }
    writer::write(file.set, out)
}
