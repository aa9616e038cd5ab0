// Step 2 of a tick: one pass over the slots finds the winners of the five ports.
#![tactic(auto)]

ghost use Rattle.std.specs.Prelude.{◌≡◌, cond, suc, ◌+◌, ◌*◌, ◌<◌, length, slice_index};
ghost use Rattle.rules.specs.Areas.{nobody, best_effort, grant_code};
ghost use Rattle.rules.specs.Board.{clock, board8};
ghost use Rattle.rules.specs.Tick.{grant};
ghost use Rattle.passes.specs.Empty.{EmptyFrom};
ghost use Rattle.passes.specs.Ports.{EachPort};
ghost use Rattle.passes.specs.Ranks as Ranks;
ghost use Rattle.choose.specs.Grants.{grant_of, Granted};
ghost use Rattle.choose.specs.Lines.{RankOf, Offered};

use clock::Key;
use layout::{ClockReading, Field, Port, Router, SlotAddress};

// Where the ranks of early slots begin, and the rank of no slot.
const EARLY: u32 = 16777216;

const NONE: u32 = 33554432;

// Who has a port.
#[derive(Clone, Copy)]
pub enum Grant {
    Nobody,
    BestEffort,
    OnTime(SlotAddress),
    Early(SlotAddress),
}

// What a port answers, by who has it.
impl From<Grant> for u8 {
    ghost from_gives = { λ grant code. code ≡ grant_code (grant_of grant) };

    #[tactic(auto, unfolding(rules::specs::Areas::grant_code))]
    fn from(grant: Grant) -> u8 {
        match grant {
            Grant::Nobody => 0,
            Grant::OnTime(_) => 1,
            Grant::BestEffort => 2,
            Grant::Early(_) => 3,
        }
    }
}

// Two keys and an address as the digits of a number.
// Not `u32::from_be_bytes`: by it `tick-256-idle` of docs/BENCH.md took 19,314 instructions, plain C's takes 19,230.
fn digits(key: u8, second: u8, s: SlotAddress) -> u32
    ensures { result ≡ (key * 256 + second) * 256 + s.0 }
{
    (u32::from(key) * 256 + u32::from(second)) * 256 + u32::from(s.0)
}

// A slot's keys and address as one number, the on-time ones first.
pub fn rank(state: &[u8], t: ClockReading, s: SlotAddress) -> u32
    requires { t.0 ≡ board8.get state.now clock }
    ensures rank { result ≡ Ranks.slot_rank board8 state.now s.0 }
    ensures line { RankOf state.now s.0 result }
{
    let slot = layout::times(state, s);
    match clock::key_of(slot.time, slot.deadline, t) {
        Key::OnTime(key, second) => digits(key, second, s),
        Key::Early(key, second) => EARLY + digits(key, second, s),
    }
}

// The least ranks, with slot s looked at. On a port that its mask has not the slot is ineligible, the third line of Fig. 7, and is not offered.
fn look(state: &[u8], t: ClockReading, s: SlotAddress, bests: &mut [u32; Router::PORTS])
    requires { (t.0 ≡ board8.get state.now clock) × EachPort (Ranks.best board8 state.now s.0) bests.old }
    ensures least { EachPort (Ranks.best board8 state.now (suc s.0)) bests.new }
    ensures lines { Offered state.now s.0 bests.old bests.new }
{
    let mask = layout::get(state, Field::Mask(s)) % 32;
    if mask == 0 {
        return;
    }
    let rank = rank(state, t, s);
    layout::change_ports(bests, mask, |best| rank.min(best));
}

// All slots from this one on are empty. It is never 0: a pass looks at slot 0 in any case, and starts without a test.
pub fn end(state: &[u8]) -> usize
    ensures { EmptyFrom board8 state.now result }
{
    for i in (1..Router::SLOTS).rev() {
        if layout::get(state, Field::Mask(SlotAddress(i as u8))) != 0 {
            return i + 1;
        }
    }
    1
}

// The least ranks of all slots; those from `end` on are empty.
fn scan(state: &[u8], end: usize) -> [u32; Router::PORTS]
    requires { EmptyFrom board8 state.now end }
    ensures { EachPort (Ranks.best board8 state.now 256) result }
{
    let t = ClockReading(layout::get(state, Field::Clock));
    let mut bests = [NONE; Router::PORTS];
    for i in 0..end {
        look(state, t, SlotAddress(i as u8), &mut bests);
    }
    bests
}

// A port sends early slots whose ranks are below this: none where best-effort waits, else those within the horizon, which are below `ahead`.
fn bound(waits: bool, ahead: u32) -> u32
    ensures { result ≡ cond waits 16777216 ahead }
{
    if waits { EARLY } else { ahead }
}

// Who has a port that sends no packet.
fn unsent(waits: bool) -> Grant
    ensures { grant_of result ≡ cond waits best_effort nobody }
{
    if waits {
        Grant::BestEffort
    } else {
        Grant::Nobody
    }
}

// Who has a port, by its least rank.
fn choose(state: &[u8], waiting: u8, port: Port, best: u32) -> Grant
    requires { best ≡ Ranks.best board8 state.now 256 port.index }
    ensures { grant_of result ≡ grant board8 state.now waiting port.index }
{
    let slot = SlotAddress((best % 256) as u8);
    if best < EARLY {
        return Grant::OnTime(slot);
    }
    let waits = layout::has_port(waiting, port);
    if NONE <= best {
        return unsent(waits);
    }
    let horizon = layout::get(state, Field::Horizon(port.index));
    if best < bound(waits, EARLY + (u32::from(horizon) + 1) * 65536) {
        return Grant::Early(slot);
    }
    unsent(waits)
}

// Who has each port, best-effort waiting where the mask says; the slots from `end` on are empty.
pub fn grants(state: &[u8], end: usize, waiting: u8) -> [Grant; Router::PORTS]
    requires { EmptyFrom board8 state.now end }
    ensures { Granted (grant board8 state.now waiting) 5 result }
{
    let bests = scan(state, end);
    std::array::from_fn(
        |p|
            requires { (p < 5) × (slice_index bests p ≡ Ranks.best board8 state.now 256 p) }
        { choose(state, waiting, Port { index: p as u8 }, bests[p]) },
    )
}
