// The comma lists of a rule file, each laid over a page.
#![tactic(auto)]

ghost use Rattle.std.specs.Prelude.{List, ℕ};
ghost use Rattle.files_spec.specs.Text.{numeral};
ghost use Rattle.files_spec.specs.File.{entry_text};
ghost use Rattle.output_laws.specs.How.Overlay.{LaidOn, list_text};

use model_spec::FIRST_VARIABLE;
use number_output::put_number;
use output::Page;

// How the items of a list are written.
trait Items {
    ghost text: { ℕ → List ℕ };

    // Lays an item.
    fn put(page: &mut Page<'_>, item: u8)
        ensures { LaidOn page.old.at (text item) page.old.text page.new.at page.new.text };
}

// Numbers.
struct Numbers;

impl Items for Numbers {
    ghost text = { numeral };

    fn put(page: &mut Page<'_>, item: u8) {
        put_number(page, item as usize);
    }
}

// Entries: a constant's number, or the letter and a variable's position.
struct Entries;

impl Items for Entries {
    ghost text = { entry_text };

    fn put(page: &mut Page<'_>, item: u8) {
        if item < FIRST_VARIABLE {
            return put_number(page, item as usize);
        }
        page.put(b'x');
        put_number(page, (item - 15) as usize);
    }
}

// Lays so many of the items, or all where there are fewer, with commas between them, and a line feed.
fn put_list<I: Items>(page: &mut Page<'_>, items: &[u8], count: usize)
    ensures { LaidOn page.old.at (list_text I.text count items.now) page.old.text page.new.at page.new.text }
{
    let shown = &items[..count.min(items.len())];
    if let Some((first, others)) = shown.split_first() {
        I::put(page, *first);
        for item in others {
            page.put(b',');
            I::put(page, *item);
        }
    }
    page.put(b'\n');
}

// Lays so many of the numbers.
pub fn put_numbers(page: &mut Page<'_>, numbers: &[u8], count: usize)
    ensures { LaidOn page.old.at (list_text numeral count numbers.now) page.old.text page.new.at page.new.text }
{
    put_list::<Numbers>(page, numbers, count);
}

// Lays so many of the entries.
pub fn put_entries(page: &mut Page<'_>, entries: &[u8], count: usize)
    ensures { LaidOn page.old.at (list_text entry_text count entries.now) page.old.text page.new.at page.new.text }
{
    put_list::<Entries>(page, entries, count);
}
