// The lines of a tape as text, appended to what is printed so far.
#![tactic(auto)]

ghost use Rattle.std.specs.Prelude.{◌≡◌, [], ◌∷◌, ◌++◌, max, ◌+◌, ◌/◌, ◌%◌, ◌≤◌, ◌<◌, length, replicate};
ghost use Rattle.arrayvec.specs.ArrayVec.{array_vec_len};
ghost use Rattle.rules.specs.Areas.{per_port};
ghost use Rattle.text.specs.Lines.{decimal, digits_of, hex, field, refused_line, withdrawn, port_field, withdrawn_sum, tick_text, tick_line};

use arrayvec::ArrayVec;
use layout::{ClockReading, Port, Router};

pub mod lent;

// A character so many times.
pub fn put_repeated<const N: usize>(lines: &mut ArrayVec<u8, N>, count: usize, b: u8)
    requires { array_vec_len lines.old + count ≤ N }
    ensures appended { lines.new.items ≡ lines.old.items ++ replicate count b }
    ensures len { array_vec_len lines.new ≡ array_vec_len lines.old + count }
{
    for _ in 0..count {
        lines.push(b);
    }
}

// The last digits of a number, one in each place. The loop goes by index, since the check knows nothing of what `iter_mut().rev()` leaves.
fn fill_decimal(digits: &mut [u8], value: u64)
    ensures { digits.new ≡ decimal (length digits.old) value }
{
    let mut rest = value;
    for i in (0..digits.len()).rev() {
        digits[i] = b'0' + (rest % 10) as u8;
        rest /= 10;
    }
}

// The last digits of a number.
pub fn put_decimal<const N: usize>(lines: &mut ArrayVec<u8, N>, width: usize, value: u64)
    requires { array_vec_len lines.old + width ≤ N }
    ensures appended { lines.new.items ≡ lines.old.items ++ decimal width value }
    ensures len { array_vec_len lines.new ≡ array_vec_len lines.old + width }
{
    let start = lines.len();
    put_repeated(lines, width, b'0');
    fill_decimal(&mut lines[start..], value);
}

// How many digits a number has without zeros in front.
pub fn digits(number: u64) -> usize
    ensures count { result ≡ digits_of number }
    ensures bound { result ≤ 20 }
{
    match number.checked_ilog10() {
        Some(power) => power as usize + 1,
        None => 1,
    }
}

// The same, and at least six.
fn record_digits(number: u64) -> usize
    ensures count { result ≡ max 6 (digits_of number) }
    ensures bound { result ≤ 20 }
{
    digits(number).max(6)
}

// A space and the last digits of a number.
pub fn put_spaced<const N: usize>(lines: &mut ArrayVec<u8, N>, width: usize, value: u64)
    requires { array_vec_len lines.old + 1 + width ≤ N }
    ensures appended { lines.new.items ≡ lines.old.items ++ 32 ∷ decimal width value }
    ensures len { array_vec_len lines.new ≡ array_vec_len lines.old + 1 + width }
{
    lines.push(b' ');
    put_decimal(lines, width, value);
}

// The line of a refused record or arrival. The refusal comes as its number, since the C interface has an arrival's as a byte of the answers.
#[tactic(auto, unfolding(crate::specs::Lines::refused_line))]
pub fn put_refused<const N: usize>(lines: &mut ArrayVec<u8, N>, number: u64, refusal: u8)
    requires { array_vec_len lines.old + 26 ≤ N }
    ensures appended { lines.new.items ≡ lines.old.items ++ refused_line number refusal }
    ensures len { array_vec_len lines.new ≤ array_vec_len lines.old + 26 }
{
    lines.push(b'R');
    put_spaced(lines, record_digits(number), number);
    put_spaced(lines, 2, u64::from(refusal));
    lines.push(b'\n');
}

// A capital hex digit.
fn hex_digit(d: u8) -> u8
    requires { d < 16 }
    ensures { result ≡ hex d }
{
    if d < 10 { b'0' + d } else { b'A' + (d - 10) }
}

// The identifier in two hex digits, and a letter.
fn identified(identifier: u8, letter: u8) -> [u8; 3]
    ensures { result ≡ hex (identifier / 16) ∷ hex (identifier % 16) ∷ letter ∷ [] }
{
    [
        hex_digit(identifier / 16),
        hex_digit(identifier % 16),
        letter,
    ]
}

// A port's field, from its answer and the outgoing identifier. The answer stays a number, since the C interface has it as a byte, and `field` says what each of the 256 shows.
#[tactic(auto, unfolding(crate::specs::Lines::field))]
fn field_bytes(code: u8, identifier: u8) -> [u8; 3]
    ensures { result ≡ field code identifier }
{
    match code {
        0 => *b"---",
        1 => identified(identifier, b'N'),
        2 => *b"bef",
        _ => identified(identifier, b'E'),
    }
}

pub fn put_field<const N: usize>(lines: &mut ArrayVec<u8, N>, code: u8, identifier: u8)
    requires { array_vec_len lines.old + 3 ≤ N }
    ensures appended { lines.new.items ≡ lines.old.items ++ field code identifier }
    ensures len { array_vec_len lines.new ≡ array_vec_len lines.old + 3 }
{
    lines
        .try_extend_from_slice(&field_bytes(code, identifier))
        .unwrap();
}

// A space and a port's field, from the outgoing and the answer bytes.
#[tactic(auto, unfolding(crate::specs::Lines::port_field))]
fn put_port<const N: usize>(
    lines: &mut ArrayVec<u8, N>,
    port: Port,
    outgoing: &[u8],
    answers: &[u8],
)
    requires { array_vec_len lines.old + 4 ≤ N }
    ensures appended { lines.new.items ≡ lines.old.items ++ port_field outgoing.now answers.now port.index }
    ensures len { array_vec_len lines.new ≡ array_vec_len lines.old + 4 }
{
    let place = usize::from(port.index);
    let code = layout::byte(answers, place);
    let identifier = layout::byte(outgoing, Router::PACKET * place);
    lines.push(b' ');
    put_field(lines, code, identifier);
}

#[tactic(auto, unfolding(rules::specs::Areas::ports_below))]
fn put_ports<const N: usize>(lines: &mut ArrayVec<u8, N>, outgoing: &[u8], answers: &[u8])
    requires { array_vec_len lines.old + 20 ≤ N }
    ensures appended { lines.new.items ≡ lines.old.items ++ per_port (port_field outgoing.now answers.now) }
    ensures len { array_vec_len lines.new ≡ array_vec_len lines.old + 20 }
{
    for index in 0..Port::COUNT {
        put_port(lines, Port { index }, outgoing, answers);
    }
}

// How many packets were withdrawn on a port.
pub fn withdrawn_on(answers: &[u8], port: Port) -> u16
    ensures { result ≡ withdrawn answers.now port.index }
{
    layout::pair(answers, 10 + 2 * usize::from(port.index))
}

// How many packets were withdrawn in all.
#[tactic(auto, unfolding(crate::specs::Lines::withdrawn_below))]
pub fn withdrawn_sum(answers: &[u8]) -> u64
    ensures sum { result ≡ withdrawn_sum answers.now }
    ensures bound { result ≤ 327675 }
{
    let mut sum = 0;
    for index in 0..Port::COUNT {
        sum += u64::from(withdrawn_on(answers, Port { index }));
    }
    sum
}

// An accepted tick's text: 30 characters, from the clock before it, the outgoing and the answer bytes. These are slices and no `Reply`, which is of a crate above: a byte past the end of one counts as 0.
#[tactic(auto, unfolding(crate::specs::Lines::tick_text))]
pub fn put_tick_text<const N: usize>(
    lines: &mut ArrayVec<u8, N>,
    clock: ClockReading,
    outgoing: &[u8],
    answers: &[u8],
)
    requires { array_vec_len lines.old + 30 ≤ N }
    ensures appended { lines.new.items ≡ lines.old.items ++ tick_text clock.0 outgoing.now answers.now }
    ensures len { array_vec_len lines.new ≡ array_vec_len lines.old + 30 }
{
    lines.push(b'T');
    put_spaced(lines, 3, u64::from(clock.0));
    put_ports(lines, outgoing, answers);
    put_spaced(lines, 4, withdrawn_sum(answers));
}

// An accepted tick's line: its text and a line feed.
#[tactic(auto, unfolding(crate::specs::Lines::tick_line))]
pub fn put_tick<const N: usize>(
    lines: &mut ArrayVec<u8, N>,
    clock: ClockReading,
    outgoing: &[u8],
    answers: &[u8],
)
    requires { array_vec_len lines.old + 31 ≤ N }
    ensures appended { lines.new.items ≡ lines.old.items ++ tick_line clock.0 outgoing.now answers.now }
    ensures len { array_vec_len lines.new ≡ array_vec_len lines.old + 31 }
{
    put_tick_text(lines, clock, outgoing, answers);
    lines.push(b'\n');
}
