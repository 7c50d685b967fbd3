// The listing program: reads a rule file on standard input and prints the marks of its table for reach 2.
#![tactic(auto)]

ghost use Rattle.std.specs.Prelude.{ℕ, ◌≤◌, ◌≡◌, List, length, take};
ghost use Rattle.io.specs.Counts.{IsPrefixLen};
ghost use Rattle.report_spec.specs.Listing.{listing};

use standard_input::{large_buffer, read_full};
use std::io;
use std::io::Read;

// No listing has more bytes, by the law `listing_bound`.
const LISTING_SIZE: usize = 110139;

// Puts the listing into a buffer that every listing fits: its length. Where the text is the front of an input, of
// 4,293 bytes or more, this is the listing of the whole input: what stands beyond plays no part.
fn listed(text: &[u8], out: &mut [u8]) -> usize
    requires { 110139 ≤ length out.old }
    ensures prefix_len { IsPrefixLen result out.new }
    ensures by_index { (input : List ℕ) (n : ℕ) → 4293 ≤ n → text.now ≡ take n input
        → take result out.new ≡ listing input }
{
    report::report(text, out)
}

// A buffer that every listing fits. A function of its own, since so long an array in `main` takes the prover a second
// more.
fn listing_buffer() -> [u8; LISTING_SIZE] {
    [0u8; LISTING_SIZE]
}

// Reads on, and answers whether more may follow.
fn skip_some(input: &mut impl Read) -> io::Result<bool> {
    let mut rest = large_buffer();
    Ok(read_full(input, &mut rest)? == 65536)
}

// Reads the rest of the input, so that whoever writes it can end. Nothing says that an input ends, so the loop has a
// number of turns that no run uses up.
fn skip_rest(input: &mut impl Read) -> io::Result<()> {
    for _ in 0..u64::MAX {
        if !skip_some(input)? {
            break;
        }
    }
    Ok(())
}

// The input's first 65,536 bytes are enough, by `listed`.
fn main(rt: HostRuntime) -> io::Result<()> {
    let mut input = rt.stdin();
    let mut text = large_buffer();
    let n = read_full(&mut input, &mut text)?;
    let mut out = listing_buffer();
    let size = listed(&text[..n], &mut out);
    rt.write_all(&out[..size])?;
    if n == 65536 {
        skip_rest(&mut input)?;
    }
    Ok(())
}
