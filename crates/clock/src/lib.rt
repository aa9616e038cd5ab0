// Clock readings: sums and differences that turn over at 256, whether a time is in time, and a packet's key from the cases of Fig. 7 of document 001.
#![tactic(auto)]

ghost use Rattle.std.specs.Prelude.{◌≡◌, true, pos, neg_ℤ, int_le};
ghost use Rattle.rules.specs.Clock.{plus, minus, offset};
ghost use Rattle.rules.specs.Areas.{bits};
ghost use Rattle.clock.specs.Cases.{TheCase, AheadBy, Fig7, rest_of, key_of};
ghost use Rattle.std.proofs.Math.Option.{some};

use layout::{ClockReading, Router};

// The time d ticks after t.
#[tactic(auto, unfolding(rules::specs::Areas::bits, rules::specs::Clock::plus))]
pub fn later(t: ClockReading, d: u8) -> ClockReading
    ensures { result.0 ≡ plus (bits 1) t.0 d }
{
    ClockReading(t.0.wrapping_add(d))
}

// How many ticks a time comes after t, by the difference that turns over; a key has it by cases (`ahead`).
#[tactic(auto, unfolding(rules::specs::Areas::bits, rules::specs::Clock::minus))]
pub fn since(time: ClockReading, t: ClockReading) -> u8
    ensures { result ≡ minus (bits 1) time.0 t.0 }
{
    time.0.wrapping_sub(t.0)
}

// The offset is at least -d.
pub fn in_time(time: ClockReading, t: ClockReading, d: u8) -> bool
    ensures { result ≡ int_le (neg_ℤ (pos d)) (offset (bits 1) time.0 t.0) }
{
    let x = since(time, t);
    x < Router::HALF || 256 - u16::from(x) <= u16::from(d)
}

// Where a time lies, seen from the clock reading t: one case for each half of the clock on either side of t. Fig. 7 of document 001, whose keys have a bit and a number:
//
//     time - t    -255 ..... -129   -128 .......... 0   1 ...... 127   128 ........ 255
//                 [ AheadAcross ]   [     Behind    ]   [  Ahead   ]   [ BehindAcross ]
//     offset      1 ......... 127   -128 .......... 0   1 ...... 127   -128 ........ -1
//     key         |1| time - t      |0| deadline - t    |1| time - t   |0| deadline - t
//
// In a case across, the clock turns from 255 to 0 between the time and t.
#[derive(Clone, Copy)]
pub enum Case {
    Behind,
    BehindAcross,
    Ahead,
    AheadAcross,
}

// Half a turn, in sums that a byte doesn't hold.
const HALF: u32 = Router::HALF as u32;

// The case that holds.
pub fn case_of(time: ClockReading, t: ClockReading) -> Case
    ensures { TheCase (bits 1) result time.0 t.0 }
{
    let x = u32::from(time.0);
    let now = u32::from(t.0);
    if x <= now {
        if now <= x + HALF {
            return Case::Behind;
        }
        return Case::AheadAcross;
    }
    if x < now + HALF {
        return Case::Ahead;
    }
    Case::BehindAcross
}

// How many ticks n is short of a turn; 0 is short of none.
// Not `wrapping_neg`: a key takes no wrapping operation (document 02, [5]; docs/PROMISES.md, "with no remainder or wrapping operation").
fn rest(n: u8) -> u8
    ensures { result ≡ rest_of (bits 1) n }
{
    if n == 0 {
        return 0;
    }
    255 - n + 1
}

// How far a time is ahead of t, without sign. For the same reason not `since`.
fn ahead(time: ClockReading, t: ClockReading) -> u8
    ensures by_case { AheadBy (bits 1) time.0 t.0 result }
    ensures difference { result ≡ minus (bits 1) time.0 t.0 }
{
    match case_of(time, t) {
        Case::Behind => rest(t.0 - time.0),
        Case::BehindAcross => time.0 - t.0,
        Case::Ahead => time.0 - t.0,
        Case::AheadAcross => rest(t.0 - time.0),
    }
}

// The offset is at most 0: the time isn't 1 to 127 ticks ahead.
pub fn on_time(time: ClockReading, t: ClockReading) -> bool
    ensures { result ≡ int_le (offset (bits 1) time.0 t.0) (pos 0) }
{
    let x = ahead(time, t);
    x == 0 || Router::HALF <= x
}

// A key of an eligible packet: the variant is the figure's second bit, the first number the figure's. A packet that is ineligible on a port, its mask without the port, has none there. The second decides among equal ones: on time the offset, from half a turn behind t on, early deadline - t.
#[derive(Clone, Copy)]
pub enum Key {
    OnTime(u8, u8),
    Early(u8, u8),
}

// The key at t of a packet with this time and deadline: its line of Fig. 7, on every port that it is destined to.
pub fn key_of(time: ClockReading, deadline: ClockReading, t: ClockReading) -> Key
    ensures line { Fig7 (bits 1) true time.0 deadline.0 t.0 (some result) }
    ensures key { result ≡ key_of (bits 1) time.0 deadline.0 t.0 }
{
    let laxity = ahead(deadline, t);
    match case_of(time, t) {
        Case::Behind => Key::OnTime(laxity, Router::HALF - (t.0 - time.0)),
        Case::BehindAcross => Key::OnTime(laxity, time.0 - t.0 - Router::HALF),
        Case::Ahead => Key::Early(time.0 - t.0, laxity),
        Case::AheadAcross => Key::Early(rest(t.0 - time.0), laxity),
    }
}
