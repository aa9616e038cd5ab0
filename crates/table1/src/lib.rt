// The ten queues of Table 1 in the area that holds them: slots come in, leave, and move over.
#![tactic(auto)]

ghost use Rattle.std.specs.Prelude.{◌≡◌, ℕ, List, ◌+◌, ◌-◌, ◌<◌, ◌≤◌};
ghost use Rattle.std.specs.Borrow.{MutBor};
ghost use Rattle.rules.specs.Board.{Mask, free, board8};
ghost use Rattle.rules.specs.Tick.{is_early};
ghost use Rattle.choose.specs.Grants.{grant_of, grant_at};
ghost use Rattle.queues.specs.Table1.{before};
ghost use Rattle.queues.specs.Area.{queue_at, put_queue, inserted};
ghost use Rattle.queues.specs.Area as Area;
ghost use Rattle.queues.specs.Engine as Engine;
ghost use Rattle.table1.specs.Firsts.{slot_of};
ghost use Rattle.table1.specs.Sorts.{early_of};

use choose::Grant;
use layout::{Field, Port, Router, SlotAddress, State};
use std::ops::Range;

// The area's bytes, a queue of each sort for each port.
pub const LENGTH: usize = 2580;

pub type Queues = [u8; LENGTH];

// The sorts of a port's queues, and of a slot.
#[derive(Clone, Copy, PartialEq, Eq)]
pub enum Sort {
    OnTime,
    Early,
}

impl Sort {
    // A slot's sort.
    pub fn of(state: &[u8], s: SlotAddress) -> Sort
        ensures { early_of result ≡ is_early board8 state.now s.0 }
    {
        let early = queue::is_early(state, s);
        if early { Sort::Early } else { Sort::OnTime }
    }
}

// Where the queue of a port and a sort stands.
pub fn place(port: Port, sort: Sort) -> usize
    ensures start { result ≡ queue_at port.index (early_of sort) }
    ensures within { result + 258 ≤ 2580 }
{
    let on_time = 2 * queue::LENGTH * (port.index as usize);
    match sort {
        Sort::OnTime => on_time,
        Sort::Early => on_time + queue::LENGTH,
    }
}

// Its bytes in the area.
fn span(port: Port, sort: Sort) -> Range<usize>
    ensures start { result.start ≡ queue_at port.index (early_of sort) }
    ensures end { (result.end ≡ result.start + 258) × (result.end ≤ 2580) }
{
    let start = place(port, sort);
    start..start + queue::LENGTH
}

// The queue of a port and a sort.
pub fn part(queues: &Queues, port: Port, sort: Sort) -> &[u8]
    ensures { result.now ≡ Area.queue queues.now port.index (early_of sort) }
{
    &queues[span(port, sort)]
}

// The first of the queue of a port and a sort.
pub fn front(queues: &Queues, port: Port, sort: Sort) -> Option<SlotAddress>
    ensures { slot_of result ≡ Engine.first (Area.queue queues.now port.index (early_of sort)) }
{
    let queue = part(queues, port, sort);
    let last = queue::size(queue).checked_sub(1)?;
    Some(queue::entry(queue, last))
}

// Slot s comes into the queue of a port and a sort.
fn insert(queues: &mut Queues, state: &[u8], s: SlotAddress, port: Port, sort: Sort)
    ensures { queues.new ≡ put_queue port.index (early_of sort) (inserted (before board8 state.now) s.0 (Area.queue queues.old port.index (early_of sort))) queues.old }
{
    queue::insert(&mut queues[span(port, sort)], state, s);
}

// A step at each port, one port after the other.
fn each_port<F: Fn(&mut Queues, Port)>(queues: &mut Queues, step: F)
    requires { (x : _) (p : _) → F.pre step x p }
    ensures { (f : ℕ → List ℕ → List ℕ) → ((x y : MutBor (List ℕ)) (p : Port) → F.post step x p tt y → y.now ≡ f p.index x.now) → queues.new ≡ Engine.each_port f 5 queues.old }
{
    for index in 0..Port::COUNT {
        step(queues, Port { index });
    }
}

// Slot s comes into a port's queue of its sort, if its mask has the port.
fn enter_port(queues: &mut Queues, state: &[u8], s: SlotAddress, mask: u8, sort: Sort, port: Port)
    requires { (mask ≡ board8.get state.now (Mask, s.0)) × (early_of sort ≡ is_early board8 state.now s.0) }
    ensures { queues.new ≡ Engine.enter board8 state.now s.0 port.index queues.old }
{
    if layout::has_port(mask, port) {
        insert(queues, state, s, port, sort);
    }
}

// Slot s comes into the queue of its sort of every port of its mask.
fn enter(queues: &mut Queues, state: &[u8], s: SlotAddress)
    ensures { queues.new ≡ Engine.entered board8 state.now s.0 queues.old }
{
    let mask = layout::get(state, Field::Mask(s));
    if mask == 0 {
        return;
    }
    let sort = Sort::of(state, s);
    each_port(
        queues,
        |queues, port| enter_port(queues, state, s, mask, sort, port),
    );
}

// Fills the queues from the state.
pub fn fill(queues: &mut Queues, state: &[u8])
    ensures { queues.new ≡ Engine.filled board8 state.now 256 }
{
    *queues = [0; LENGTH];
    for i in 0..Router::SLOT_COUNT {
        enter(queues, state, SlotAddress(i as u8));
    }
}

// Step 1: the slots of the packets stored, which took the stack's entries from n - 1 down.
pub fn receive(queues: &mut Queues, state: &State, n: u16)
    ensures { queues.new ≡ Engine.received board8 state.now n (n - board8.get state.now free) queues.old }
{
    for m in (layout::free_count(state)..n).rev() {
        let s = SlotAddress(layout::get(state, Field::Idle(m)));
        enter(queues, state, s);
    }
}

// The first of a queue leaves it.
fn shorten(queues: &mut Queues, port: Port, sort: Sort)
    ensures { queues.new ≡ Engine.shortened port.index (early_of sort) queues.old }
{
    queue::shorten(&mut queues[span(port, sort)]);
}

// Step 3 for one port that has this grant.
fn sent_port(queues: &mut Queues, g: Grant, port: Port)
    ensures { queues.new ≡ Engine.sent_from (grant_of g) port.index queues.old }
{
    match g {
        Grant::Nobody | Grant::BestEffort => {}
        Grant::OnTime(_) => shorten(queues, port, Sort::OnTime),
        Grant::Early(_) => shorten(queues, port, Sort::Early),
    }
}

// Step 3: what a port sends leaves its queue.
pub fn sent(queues: &mut Queues, grants: [Grant; Router::PORTS])
    ensures { queues.new ≡ Engine.each_port (λ p. Engine.sent_from (grant_at grants p) p) 5 queues.old }
{
    each_port(
        queues,
        |queues, port| sent_port(queues, grants[port.index as usize], port),
    );
}

// Step 4 for one port.
fn withdraw_port(queues: &mut Queues, state: &[u8], port: Port)
    ensures { queues.new ≡ Engine.due_from board8 state.now port.index queues.old }
{
    let n = queue::undue(part(queues, port, Sort::OnTime), state);
    queue::resize(&mut queues[span(port, Sort::OnTime)], n);
}

// Step 4: what is withdrawn leaves the queues.
pub fn withdraw(queues: &mut Queues, state: &[u8])
    ensures { queues.new ≡ Engine.each_port (Engine.due_from board8 state.now) 5 queues.old }
{
    each_port(queues, |queues, port| withdraw_port(queues, state, port));
}

// One port's slots that are not early any more move over.
fn move_port(queues: &mut Queues, state: &[u8], port: Port)
    ensures { queues.new ≡ Engine.move_over board8 state.now port.index queues.old }
{
    for j in (0..queue::size(part(queues, port, Sort::Early))).rev() {
        let s = queue::entry(part(queues, port, Sort::Early), j);
        if queue::is_early(state, s) {
            return;
        }
        shorten(queues, port, Sort::Early);
        insert(queues, state, s, port, Sort::OnTime);
    }
}

// Once the clock has advanced, the slots whose time has come move over.
pub fn move_over(queues: &mut Queues, state: &[u8])
    ensures { queues.new ≡ Engine.each_port (Engine.move_over board8 state.now) 5 queues.old }
{
    each_port(queues, |queues, port| move_port(queues, state, port));
}
