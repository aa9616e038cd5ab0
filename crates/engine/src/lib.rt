// The engine's tick: each port's choice by the first ones of its queues, as in Table 1, and the six steps.
#![tactic(auto)]

ghost use Rattle.std.specs.Prelude.{◌≡◌, ℕ, ◌<◌, pos};
ghost use Rattle.rules.specs.Areas.{Outcome};
ghost use Rattle.rules.specs.Board.{board8};
ghost use Rattle.rules.specs.Tick.{slot_key};
ghost use Rattle.passes.specs.Room.{Room};
ghost use Rattle.passes.specs.Sends.{Winner};
ghost use Rattle.passes.specs.Stores.{store};
ghost use Rattle.choose.specs.Grants.{grant_of, grant_at, Granted};
ghost use Rattle.queues.specs.Area as Area;
ghost use Rattle.queues.specs.Engine.{Bench};
ghost use Rattle.queues.specs.Engine as Engine;
ghost use Rattle.table1.specs.Firsts.{slot_of};
ghost use Rattle.table1.specs.Sorts.{early_of};

use choose::Grant;
use clock::Key;
use layout::{Answers, ClockReading, Field, Memory, Packets, Port, Router, SlotAddress, State};
use table1::{Queues, Sort};

// The first of a port's queue, if it is a slot that waits for the port.
fn heading(state: &[u8], queues: &Queues, port: Port, sort: Sort) -> Option<SlotAddress>
    ensures { slot_of result ≡ Engine.heading board8 state.now port.index (Engine.first (Area.queue queues.now port.index (early_of sort))) }
{
    let first = table1::front(queues, port, sort);
    first.filter(|s| layout::has_port(layout::get(state, Field::Mask(*s)), port))
}

// A slot's key.
fn key(state: &[u8], s: SlotAddress) -> u8
    ensures { pos result ≡ (slot_key board8 state.now s.0).key }
{
    let t = ClockReading(layout::get(state, Field::Clock));
    let slot = layout::times(state, s);
    match clock::key_of(slot.time, slot.deadline, t) {
        Key::OnTime(key, _) => key,
        Key::Early(key, _) => key,
    }
}

// Who has a port: the first on time, else best-effort, else the first early one within the horizon.
fn choose_port(state: &[u8], queues: &Queues, waiting: u8, port: Port) -> Grant
    ensures choice { grant_of result ≡ Engine.queue_grant board8 state.now queues.now waiting port.index }
    ensures wins { Winner board8 state.now port.index (grant_of result) }
{
    if let Some(s) = heading(state, queues, port, Sort::OnTime) {
        return Grant::OnTime(s);
    }
    if layout::has_port(waiting, port) {
        return Grant::BestEffort;
    }
    let horizon = layout::get(state, Field::Horizon(port.index));
    match heading(state, queues, port, Sort::Early) {
        Some(s) if key(state, s) <= horizon => Grant::Early(s),
        _ => Grant::Nobody,
    }
}

// Who has each port, best-effort waiting where the mask says.
fn grants(state: &[u8], queues: &Queues, waiting: u8) -> [Grant; Router::PORTS]
    ensures choices { Granted (Engine.queue_grant board8 state.now queues.now waiting) 5 result }
    ensures wins { (p : ℕ) → p < 5 → Winner board8 state.now p (grant_at result p) }
{
    std::array::from_fn(
        |p|
            requires { p < 5 }
        { choose_port(state, queues, waiting, Port { index: p as u8 }) },
    )
}

// The six steps, of a sound state.
pub fn work(
    state: &mut State,
    memory: &mut Memory,
    queues: &mut Queues,
    arrivals: &Packets,
    outgoing: &mut Packets,
    answers: &mut Answers,
    arriving: u8,
    waiting: u8,
)
    requires { Room board8 state.old }
    ensures { ◌≡◌ {A = Outcome Bench}
        (record { reply = record { number = 0; outgoing = outgoing.new; answers = answers.new }; after = record { store = store state.new memory.new; queues = queues.new } })
        (Engine.ticked board8 (record { store = store state.old memory.old; queues = queues.old }) arriving waiting arrivals.now) }
{
    let n = layout::free_count(state);
    let met = arrive::arrive(state, memory, arrivals, arriving);
    table1::receive(queues, state, n);
    let grants = grants(state, queues, waiting);
    table1::sent(queues, grants);
    table1::withdraw(queues, state);
    let end = choose::end(state);
    let served = serve::carry_out(state, memory, outgoing, grants, end);
    table1::move_over(queues, state);
    let codes = served.codes;
    let counts = served.counts;
    tick::put_answers(answers, codes, met, counts);
}
