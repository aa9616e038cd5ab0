// The same texts for a lent area of any length: each function prints from a place on, leaves all other places as they were, and gives the place after its text.
ghost use Rattle.std.specs.Prelude.{◌≡◌, ◌∷◌, ◌+◌, ◌≤◌, length, replicate};
ghost use Rattle.text.specs.Lines.{decimal, field, tick_text};
ghost use Rattle.text.specs.Put.{Put};

use arrayvec::ArrayVec;
use layout::ClockReading;

// A character so many times.
pub fn put_repeated(lines: &mut [u8], at: usize, count: usize, b: u8) -> usize
    requires { at + count ≤ length lines.old }
    ensures put { Put (replicate count b) at lines.old lines.new result }
    ensures value { result ≡ at + count }
{
    lines[at..at + count].fill(b);
    at + count
}

// A space and the last digits of a number.
pub fn put_spaced(lines: &mut [u8], at: usize, width: usize, value: u64) -> usize
    requires { at + 1 + width ≤ length lines.old }
    ensures put { Put (32 ∷ decimal width value) at lines.old lines.new result }
    ensures value { result ≡ at + 1 + width }
{
    let end = at + 1 + width;
    lines[at] = b' ';
    crate::fill_decimal(&mut lines[at + 1..end], value);
    end
}

// A port's field, from its answer and the outgoing identifier.
pub fn put_field(lines: &mut [u8], at: usize, code: u8, identifier: u8) -> usize
    requires { at + 3 ≤ length lines.old }
    ensures put { Put (field code identifier) at lines.old lines.new result }
    ensures value { result ≡ at + 3 }
{
    let bytes = crate::field_bytes(code, identifier);
    layout::copy_in(&bytes, lines, at);
    at + bytes.len()
}

// An accepted tick's text: 30 characters, from the clock before it, the outgoing and the answer bytes.
pub fn put_tick_text(
    lines: &mut [u8],
    at: usize,
    clock: ClockReading,
    outgoing: &[u8],
    answers: &[u8],
) -> usize
    requires { at + 30 ≤ length lines.old }
    ensures put { Put (tick_text clock.0 outgoing.now answers.now) at lines.old lines.new result }
    ensures value { result ≡ at + 30 }
{
    let mut text = ArrayVec::<u8, 30>::new();
    crate::put_tick_text(&mut text, clock, outgoing, answers);
    layout::copy_in(&text, lines, at);
    at + text.len()
}
