// What the case programs have in common: the parts of a line.
#![tactic(auto)]

ghost use Rattle.std.specs.Prelude.{◌≡◌, map, ◌≤◌, ◌<◌, [], min, length, take, codes};
ghost use Rattle.std.proofs.Math.Seq.{paste};
ghost use Rattle.cases_laws.specs.How.Texts.{line_fed, index_of, up_to, behind, with_digit, number_of};

// A byte of a rule file that is written on one line: `/` stands for a line feed.
#[tactic(auto, unfolding(cases_laws::specs::How::Texts::line_fed))]
fn line_fed(byte: u8) -> u8
    ensures { result ≡ line_fed byte }
{
    if byte == b'/' {
        return b'\n';
    }
    byte
}

// Puts a text into a buffer, as far as there is room, with a line feed for each `/`; gives how many bytes it put.
pub fn decode(input: &[u8], text: &mut [u8]) -> usize
    ensures upper_bound { result ≤ length text.old }
    ensures value { result ≡ min (length input.now) (length text.old) }
    ensures text_after { text.new ≡ paste text.old 0 (map line_fed input.now) result }
{
    let size = input.len().min(text.len());
    // by index: no clause says what a loop over a `zip` of `iter_mut` writes
    for i in 0..size {
        text[i] = line_fed(input[i]);
    }
    size
}

// The first place of a byte in a text; the text's length where there is none.
pub fn find(byte: u8, text: &[u8]) -> usize
    ensures bound { result ≤ length text.now }
    ensures value { result ≡ index_of byte text.now }
{
    text.iter().position(|b| *b == byte).unwrap_or(text.len())
}

// The part of a text up to the first place of a byte; all of it where there is none.
#[tactic(auto, unfolding(cases_laws::specs::How::Texts::up_to))]
pub fn up_to(byte: u8, text: &[u8]) -> &[u8]
    ensures { result.now ≡ up_to byte text.now }
{
    let size = find(byte, text);
    &text[..size]
}

// What follows the first place of a byte in a text; nothing where there is none.
#[tactic(auto, unfolding(cases_laws::specs::How::Texts::behind))]
pub fn behind(byte: u8, text: &[u8]) -> &[u8]
    ensures { result.now ≡ behind byte text.now }
{
    let place = find(byte, text);
    if text.len() <= place {
        return &text[place..];
    }
    &text[place + 1..]
}

// The two parts of a text that the first place of a byte divides; where there is none, all of it and nothing.
pub fn split_once(byte: u8, text: &[u8]) -> (&[u8], &[u8])
    ensures front { result.0.now ≡ up_to byte text.now }
    ensures rest { result.1.now ≡ behind byte text.now }
{
    (up_to(byte, text), behind(byte, text))
}

// A line as it is printed again: its first 120 bytes, and two dots where it has more.
pub fn shown(line: &[u8]) -> (&[u8], &[u8])
    ensures front { result.0.now ≡ take 120 line.now }
    ensures whole { length line.now ≤ 120 → result.1.now ≡ [] }
    ensures dots { 120 < length line.now → result.1.now ≡ codes ".." }
{
    if line.len() <= 120 {
        return (line, b"");
    }
    (&line[..120], b"..")
}

// A number with one digit more; the largest one where that is too large.
#[tactic(auto, unfolding(cases_laws::specs::How::Texts::with_digit))]
fn with_digit(number: usize, digit: u8) -> usize
    ensures { result ≡ with_digit digit number }
{
    number
        .saturating_mul(10)
        .saturating_add((digit % 16) as usize)
}

// The number of a text: each byte is the digit of its low four bits; the largest number where that is too large.
#[tactic(auto, unfolding(cases_laws::specs::How::Texts::number_of))]
pub fn number_of(text: &[u8]) -> usize
    ensures { result ≡ number_of text.now }
{
    text.iter()
        .fold(0, |number, digit| with_digit(number, *digit))
}
