// The items at the front of a text: words, and numbers with the byte that ends them. Each is given with the rest of
// the text, a word as the rest alone.
#![tactic(auto)]

ghost use Rattle.std.specs.Prelude.{◌≡◌, ◌≤◌, true, length};
ghost use Rattle.std.specs.List.{prefix_len};
ghost use Rattle.theory_spec.specs.Lists.{every};
ghost use Rattle.files_spec.specs.Reading.{literal, is_digit, is_number, decimal, number, number_within};
ghost use Rattle.reader_laws.specs.How.Found.{read_as, word_as};

use refusals_spec::Refusal;

// A word, byte for byte.
#[tactic(auto, using(reader_laws::proofs::ByteLaws::word_stripped))]
pub fn word<'a>(text: &'a [u8], key: &[u8]) -> Result<&'a [u8], Refusal>
    ensures { literal key.now text.now ≡ word_as result }
{
    text.strip_prefix(key).ok_or(Refusal::Form)
}

// How many digits stand at the front of a text.
fn digit_count(text: &[u8]) -> usize
    ensures { result ≡ prefix_len is_digit text.now }
{
    text.iter().take_while(|byte| byte.is_ascii_digit()).count()
}

// Whether digits are a number: one to three, and the first of several not 0.
fn is_number(digits: &[u8]) -> bool
    ensures { result ≡ is_number digits.now }
{
    match digits.len() {
        1 => true,
        2 | 3 => digits[0] != b'0',
        _ => false,
    }
}

// The number that at most three digits stand for.
fn decimal(digits: &[u8]) -> u16
    requires few { length digits.now ≤ 3 }
    requires all { every is_digit digits.now ≡ true }
    ensures { result ≡ decimal digits.now }
{
    let mut value = 0;
    for digit in digits {
        value = 10 * value + u16::from(digit - b'0');
    }
    value
}

// A number and the byte that ends it.
pub fn number(text: &[u8], ending: u8) -> Result<(u16, &[u8]), Refusal>
    ensures { number ending text.now ≡ read_as result }
{
    let (digits, after) = text.split_at(digit_count(text));
    if !is_number(digits) {
        return Err(Refusal::Form);
    }
    let rest = word(after, &[ending])?;
    Ok((decimal(digits), rest))
}

// A number from `least` to `most`.
pub fn number_within(text: &[u8], least: u8, most: u8, ending: u8) -> Result<(u8, &[u8]), Refusal>
    ensures { number_within least most ending text.now ≡ read_as result }
{
    let (value, rest) = number(text, ending)?;
    if value < u16::from(least) || u16::from(most) < value {
        return Err(Refusal::Limit);
    }
    Ok((value as u8, rest))
}
