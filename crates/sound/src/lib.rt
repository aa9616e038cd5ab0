// Questions 13 to 15: is the state sound, and if not, which part is bad? One pass each over connections, horizons, stack and slots.
#![tactic(auto)]

ghost use Rattle.std.specs.Prelude.{◌≡◌, not, ◌&&◌, [], ◌∷◌, ℕ, ◌≤◌, ◌<◌, ◌==◌, pos, neg_ℤ, false, get_or, replicate, OnOk};
ghost use Rattle.std.specs.Bool.{beq};
ghost use Rattle.std.specs.Int.Signed.{le_z};
ghost use Rattle.rules.specs.Order.{all};
ghost use Rattle.rules.specs.Clock.{offset};
ghost use Rattle.rules.specs.Areas.{bits, elem, asked};
ghost use Rattle.rules.specs.Board.{Mask, board8};
ghost use Rattle.rules.specs.Questions.{connection_sound, horizon_sound, settings_sound, stack, listed, stack_sound, slot_sound, slots_sound, fault, lowest_bad};
ghost use Rattle.layout.specs.Numbers.{answer_of};
ghost use Rattle.passes.specs.Room.{Room};
ghost use Rattle.passes.specs.Stores.{store};
ghost use Rattle.passes.specs.Stack.{Marked};
ghost use Rattle.sound.specs.Lowest.{slot_or_256};

use layout::{ClockReading, ConnectionId, Field, Memory, Refusal, Router, SlotAddress, State};

// A connection's delay and mask are in range.
fn connection_sound(state: &State, c: ConnectionId) -> bool
    ensures { result ≡ connection_sound board8 state.now c.0 }
{
    layout::get(state, Field::Delay(c)) < Router::HALF
        && layout::get(state, Field::Routes(c)) <= Router::ALL_PORTS
}

fn connections_sound(state: &State) -> bool
    ensures { result ≡ all 256 (connection_sound board8 state.now) }
{
    // A loop: by `all`, tried, the questions of a fresh router take 6,127 instructions; by this loop 5,612, by the plain C 6,003.
    for c in 0..Router::CONNECTION_COUNT {
        if !connection_sound(state, ConnectionId(c as u8)) {
            return false;
        }
    }
    true
}

fn horizons_sound(state: &State) -> bool
    ensures { result ≡ all 5 (horizon_sound board8 state.now) }
{
    (0..Router::PORTS).all(|p| layout::get(state, Field::Horizon(p as u8)) < Router::HALF)
}

// Connection table, horizons and control latch.
fn settings_sound(state: &State) -> bool
    ensures { result ≡ settings_sound board8 state.now }
{
    connections_sound(state)
        && horizons_sound(state)
        && layout::get(state, Field::Latch(1)) < Router::HALF
        && layout::get(state, Field::Latch(2)) <= Router::ALL_PORTS
        && layout::get(state, Field::Latch(3)) <= Router::ALL_PORTS
}

// Marks the slots among the first n entries of the stack, and says whether these are different.
// The marks are lent: as a result, tried, they stand on the stack twice, 592 bytes on x86-64, and a control write by queues takes some 70 more; board/test.c allows it 640.
fn mark(state: &State, n: u16, seen: &mut [bool; Router::SLOTS]) -> bool
    requires { (n ≤ 256) × (seen.old ≡ replicate 256 false) }
    ensures { Marked board8 state.now n seen.new result }
{
    let mut distinct = true;
    for i in 0..n {
        let a = layout::get(state, Field::Idle(i)) as usize;
        distinct &= !seen[a];
        seen[a] = true;
    }
    distinct
}

// The slots marked are exactly those with mask 0.
fn all_listed(state: &State, seen: &[bool; Router::SLOTS]) -> bool
    requires { (a : ℕ) → a < 256 → get_or seen.now a false ≡ elem a (stack board8 state.now) }
    ensures { result ≡ all 256 (listed board8 state.now) }
{
    (0..Router::SLOTS).all(|i| {
        let mask = layout::get(state, Field::Mask(SlotAddress(i as u8)));
        seen[i] == (mask == 0)
    })
}

// The offset of the time is -d to 126: counted from -d on, among the first d + 127 of the clock's 256 readings.
fn offset_sound(time: ClockReading, t: ClockReading, d: u8) -> bool
    requires { d < 128 }
    ensures { result ≡ (le_z (neg_ℤ (pos d)) (offset (bits 1) time.0 t.0) && le_z (offset (bits 1) time.0 t.0) (pos 126)) }
{
    clock::since(clock::later(time, d), t) < d + 127
}

// The slot holds a packet whose mask, delay, time and header are in order.
fn stored_sound(state: &State, memory: &Memory, s: SlotAddress) -> bool
    ensures { result ≡ (not (board8.get state.now (Mask, s.0) == 0) && slot_sound board8 (store state.now memory.now) s.0) }
{
    let mask = layout::get(state, Field::Mask(s));
    let time = ClockReading(layout::get(state, Field::Time(s)));
    let deadline = ClockReading(layout::get(state, Field::Deadline(s)));
    let t = ClockReading(layout::get(state, Field::Clock));
    let d = clock::since(deadline, time);
    mask != 0
        && mask <= Router::ALL_PORTS
        && d < Router::HALF
        && offset_sound(time, t, d)
        && memory[Router::PACKET * (s.0 as usize) + 1] == deadline.0
}

// The slot is empty if it is idle, that is on the stack, and else holds a packet in order.
fn slot_passes(state: &State, memory: &Memory, s: SlotAddress, idle: bool) -> bool
    ensures { result ≡ (beq idle (board8.get state.now (Mask, s.0) == 0) && slot_sound board8 (store state.now memory.now) s.0) }
{
    if idle {
        layout::get(state, Field::Mask(s)) == 0
    } else {
        stored_sound(state, memory, s)
    }
}

// One pass over the slots, of which those on the stack are marked: they are those with mask 0, and the others hold packets in order.
fn all_pass(state: &State, memory: &Memory, seen: &[bool; Router::SLOTS]) -> bool
    requires { (a : ℕ) → a < 256 → get_or seen.now a false ≡ elem a (stack board8 state.now) }
    ensures { result ≡ (all 256 (listed board8 state.now) && slots_sound board8 (store state.now memory.now)) }
{
    (0..Router::SLOT_COUNT).all(|i| {
        let idle = seen[i as usize];
        slot_passes(state, memory, SlotAddress(i as u8), idle)
    })
}

// Where a slot doesn't pass, the stack's part decides first.
fn slots_fault(state: &State, memory: &Memory, seen: &[bool; Router::SLOTS]) -> Result<(), Refusal>
    requires { (a : ℕ) → a < 256 → get_or seen.now a false ≡ elem a (stack board8 state.now) }
    ensures { answer_of result ≡ asked ((all 256 (listed board8 state.now), 14) ∷ (slots_sound board8 (store state.now memory.now), 15) ∷ []) }
{
    if all_pass(state, memory, seen) {
        Ok(())
    } else if all_listed(state, seen) {
        Err(Refusal::Packets)
    } else {
        Err(Refusal::Stack)
    }
}

// Free count, idle-address stack and stored packets. Where there is no fault there is room.
fn stored_fault(state: &State, memory: &Memory) -> Result<(), Refusal>
    ensures number { answer_of result ≡ asked ((stack_sound board8 state.now, 14) ∷ (slots_sound board8 (store state.now memory.now), 15) ∷ []) }
    ensures room { OnOk result (Room board8 state.now) }
{
    let n = layout::free_count(state);
    if 256 < n {
        return Err(Refusal::Stack);
    }
    let mut seen = [false; Router::SLOTS];
    if !mark(state, n, &mut seen) {
        return Err(Refusal::Stack);
    }
    slots_fault(state, memory, &seen)
}

// The first fault, the parts in their order. A state without one has room.
pub fn fault(state: &State, memory: &Memory) -> Result<(), Refusal>
    ensures number { answer_of result ≡ fault board8 (store state.now memory.now) }
    ensures room { OnOk result (Room board8 state.now) }
{
    if !settings_sound(state) {
        return Err(Refusal::Settings);
    }
    stored_fault(state, memory)
}

// The slot is empty, or holds a packet in order.
fn slot_sound(state: &State, memory: &Memory, s: SlotAddress) -> bool
    ensures { result ≡ slot_sound board8 (store state.now memory.now) s.0 }
{
    layout::get(state, Field::Mask(s)) == 0 || stored_sound(state, memory, s)
}

// The lowest bad slot.
pub fn lowest_bad(state: &State, memory: &Memory) -> Option<SlotAddress>
    ensures { slot_or_256 result ≡ lowest_bad board8 (store state.now memory.now) }
{
    (0..Router::SLOT_COUNT)
        .map(|i| SlotAddress(i as u8))
        .find(|s| !slot_sound(state, memory, *s))
}
