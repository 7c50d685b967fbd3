// Numbers laid over a page, by themselves and on a line with a key.
#![tactic(auto)]

ghost use Rattle.std.specs.Prelude.{[], ◌∷◌, ◌++◌, ◌≤◌, ◌<◌};
ghost use Rattle.files_spec.specs.Text.{line_feed, digit, numeral};
ghost use Rattle.output_laws.specs.How.Overlay.{LaidOn, shown_numeral};

use output::Page;

// Lays a digit.
fn put_digit(page: &mut Page<'_>, n: usize)
    requires { n < 10 }
    ensures { LaidOn page.old.at (digit n ∷ []) page.old.text page.new.at page.new.text }
{
    page.put(b'0' + n as u8);
}

// Lays a number of at most three digits.
fn put_digits(page: &mut Page<'_>, n: usize)
    requires { n ≤ 999 }
    ensures { LaidOn page.old.at (numeral n) page.old.text page.new.at page.new.text }
{
    if n < 10 {
        return put_digit(page, n);
    }
    if n < 100 {
        put_digit(page, n / 10);
        return put_digit(page, n % 10);
    }
    put_digit(page, n / 100);
    put_digit(page, n / 10 % 10);
    put_digit(page, n % 10);
}

// Lays a number, or 999 where it is larger.
pub fn put_number(page: &mut Page<'_>, n: usize)
    ensures { LaidOn page.old.at (shown_numeral n) page.old.text page.new.at page.new.text }
{
    put_digits(page, n.min(999));
}

// Lays a line with a key and one number.
pub fn put_number_line(page: &mut Page<'_>, key: &[u8], n: usize)
    ensures { LaidOn page.old.at (key.now ++ shown_numeral n ++ (line_feed ∷ []))
        page.old.text page.new.at page.new.text }
{
    page.put_word(key);
    put_number(page, n);
    page.put(b'\n');
}
