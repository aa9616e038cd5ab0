// One queue of Table 1: how many slots are in it, and its entries. The first of n is entry n - 1.
#![tactic(auto, unfolding(queues::specs::Area::size, queues::specs::Area::entry, queues::specs::Area::resized, queues::specs::Area::put_entry))]

ghost use Rattle.std.specs.Prelude.{◌≡◌, ◌+◌, ◌-◌, ◌<◌, ◌≤◌, length};
ghost use Rattle.rules.specs.Board.{clock, board8};
ghost use Rattle.rules.specs.Tick.{is_early, is_due};
ghost use Rattle.queues.specs.Table1.{before};
ghost use Rattle.queues.specs.Area as Area;

use layout::{ClockReading, Field, Router, SlotAddress};

// Its bytes: the size in two, high first, and an entry for each slot.
pub const LENGTH: usize = 258;

const ENTRIES: usize = 2;

pub fn size(queue: &[u8]) -> u16
    ensures { result ≡ Area.size queue.now }
{
    layout::pair(queue, 0)
}

pub fn entry(queue: &[u8], j: u16) -> SlotAddress
    ensures { result.0 ≡ Area.entry queue.now j }
{
    SlotAddress(layout::byte(queue, ENTRIES + j as usize))
}

pub fn resize(queue: &mut [u8], n: u16)
    ensures { queue.new ≡ Area.resized n queue.old }
{
    layout::put_pair(queue, 0, n);
}

// An entry that the queue has, read and stored without a test of its length: with that of `entry`, filling from 256 slots takes 1.18 of the instructions.
fn slot(queue: &[u8], j: usize) -> SlotAddress
    requires { 2 + j < length queue.now }
    ensures { result.0 ≡ Area.entry queue.now j }
{
    SlotAddress(queue[ENTRIES + j])
}

fn put_slot(queue: &mut [u8], j: usize, s: SlotAddress)
    requires { 2 + j < length queue.old }
    ensures { queue.new ≡ Area.put_entry queue.old j s.0 }
{
    queue[ENTRIES + j] = s.0;
}

// The slot's time is ahead of the clock.
pub fn is_early(state: &[u8], s: SlotAddress) -> bool
    ensures { result ≡ is_early board8 state.now s.0 }
{
    let time = ClockReading(layout::get(state, Field::Time(s)));
    let t = ClockReading(layout::get(state, Field::Clock));
    !clock::on_time(time, t)
}

// Moves the first ones of n up by one, as far as they go before slot s, and says where s has its place.
fn make_room(queue: &mut [u8], state: &[u8], t: ClockReading, s: SlotAddress, n: usize) -> usize
    requires { (t.0 ≡ board8.get state.now clock) × (length queue.old ≡ Area.queue_length) × (n < 256) }
    ensures { (result ≤ n) × (Area.put_entry queue.new result s.0 ≡ Area.placed (before board8 state.now) s.0 n queue.old) }
{
    let rank = choose::rank(state, t, s);
    for j in (0..n).rev() {
        let other = slot(queue, j);
        if rank <= choose::rank(state, t, other) {
            return j + 1;
        }
        put_slot(queue, j + 1, other);
    }
    0
}

// Slot s comes in, at its place in the comparator's order; a full queue stays as it is.
pub fn insert(queue: &mut [u8], state: &[u8], s: SlotAddress)
    requires { length queue.old ≡ Area.queue_length }
    ensures { queue.new ≡ Area.inserted (before board8 state.now) s.0 queue.old }
{
    let n = size(queue);
    if Router::SLOTS <= n as usize {
        return;
    }
    let t = ClockReading(layout::get(state, Field::Clock));
    let j = make_room(queue, state, t, s, n as usize);
    put_slot(queue, j, s);
    resize(queue, n + 1);
}

// The first one leaves.
pub fn shorten(queue: &mut [u8])
    ensures { queue.new ≡ Area.resized (Area.size queue.old - 1) queue.old }
{
    resize(queue, size(queue).saturating_sub(1));
}

// How many are left once the first ones that are due have left.
pub fn undue(queue: &[u8], state: &[u8]) -> u16
    ensures { result ≡ Area.rest (is_due board8 state.now) queue.now (Area.size queue.now) }
{
    let t = layout::get(state, Field::Clock);
    for j in (0..size(queue)).rev() {
        let s = entry(queue, j);
        if layout::get(state, Field::Deadline(s)) != t {
            return j + 1;
        }
    }
    0
}
