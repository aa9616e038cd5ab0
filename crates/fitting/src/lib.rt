// Question 21: do the queues belong to the state, as far as their sizes and first ones tell?
#![tactic(auto)]

ghost use Rattle.std.specs.Prelude.{◌≡◌};
ghost use Rattle.rules.specs.Board.{board8};
ghost use Rattle.queues.specs.Table1.{waits};
ghost use Rattle.queues.specs.Area.{queue, size};
ghost use Rattle.queues.specs.Engine as Engine;
ghost use Rattle.fitting.specs.Counts as Counts;
ghost use Rattle.table1.specs.Sorts.{early_of};

use layout::{Field, Port, Router, SlotAddress, State};
use table1::{Queues, Sort};

// For each mask one for each of its ports, twelve bits a port, so that the ports of 256 masks are counted at once.
const SPREAD: [u64; 32] = [
    0,
    1,
    4096,
    4097,
    16777216,
    16777217,
    16781312,
    16781313,
    68719476736,
    68719476737,
    68719480832,
    68719480833,
    68736253952,
    68736253953,
    68736258048,
    68736258049,
    281474976710656,
    281474976710657,
    281474976714752,
    281474976714753,
    281474993487872,
    281474993487873,
    281474993491968,
    281474993491969,
    281543696187392,
    281543696187393,
    281543696191488,
    281543696191489,
    281543712964608,
    281543712964609,
    281543712968704,
    281543712968705,
];

// A mask's, of a table of all.
fn spread(table: &[u64; 32], mask: u8) -> u64
    requires { table.now ≡ Counts.spreads 32 0 }
    ensures { result ≡ Counts.spread mask }
{
    let i = (mask % 32) as usize;
    table[i]
}

// How many slots wait for each port, in one number. The table is copied once: the compiler makes a constant array anew wherever it is indexed.
fn waiting(state: &State) -> u64
    ensures { result ≡ Counts.packed_counts (Counts.wait_for state.now 256) }
{
    let table = SPREAD;
    let mut sum: u64 = 0;
    for i in 0..Router::SLOT_COUNT {
        let mask = layout::get(state, Field::Mask(SlotAddress(i as u8)));
        sum += spread(&table, mask);
    }
    sum
}

// Slot s waits for the port and is of the sort.
fn waits(state: &[u8], s: SlotAddress, port: Port, sort: Sort) -> bool
    ensures { result ≡ waits board8 state.now port.index (early_of sort) s.0 }
{
    layout::has_port(layout::get(state, Field::Mask(s)), port) && Sort::of(state, s) == sort
}

// The first of a port's queue, if any, waits for the port and is of the sort.
fn first_fits(state: &[u8], queues: &Queues, port: Port, sort: Sort) -> bool
    ensures { result ≡ Engine.is_first_fitting board8 state.now port.index (early_of sort) (Engine.first (queue queues.now port.index (early_of sort))) }
{
    table1::front(queues, port, sort).is_none_or(|s| waits(state, s, port, sort))
}

// How many slots are in the queue of a port and a sort.
fn size_of(queues: &Queues, port: Port, sort: Sort) -> u16
    ensures { result ≡ size (queue queues.now port.index (early_of sort)) }
{
    queue::size(table1::part(queues, port, sort))
}

// The queues of a port have as many slots as wait for it, and right first ones.
fn port_fits(state: &[u8], queues: &Queues, port: Port, count: u64) -> bool
    requires { count ≡ Counts.wait_for state.now 256 port.index }
    ensures { result ≡ Engine.port_fits board8 state.now queues.now port.index }
{
    let on_time = u64::from(size_of(queues, port, Sort::OnTime));
    let early = u64::from(size_of(queues, port, Sort::Early));
    on_time + early == count
        && first_fits(state, queues, port, Sort::OnTime)
        && first_fits(state, queues, port, Sort::Early)
}

pub fn fitting(state: &State, queues: &Queues) -> bool
    ensures { result ≡ Engine.fitting board8 state.now queues.now }
{
    let mut left = waiting(state);
    for index in 0..Port::COUNT {
        if !port_fits(state, queues, Port { index }, left % 4096) {
            return false;
        }
        left /= 4096;
    }
    true
}
