// Steps 3 to 5 of a tick in one pass over the slots.
#![tactic(auto)]

ghost use Rattle.std.specs.Prelude.{◌≡◌, ℕ, ◌<◌, ◌≤◌, get_or};
ghost use Rattle.rules.specs.Board.{Mask, free, board8};
ghost use Rattle.rules.specs.Tick.{give_back};
ghost use Rattle.passes.specs.Room.{Room};
ghost use Rattle.passes.specs.Empty.{EmptyFrom};
ghost use Rattle.passes.specs.Ports.{EachPort};
ghost use Rattle.passes.specs.Settling.{slot_after, slot_count, settled, missed};

use layout::{ClockReading, Field, Router, SlotAddress, State};

// The slot is emptied, and goes back on the stack.
fn give_back(state: &mut State, s: SlotAddress)
    requires { board8.get state.old free ≤ 256 }
    ensures { state.new ≡ give_back board8 s.0 (board8.put state.old (Mask, s.0) 0) }
{
    layout::put(state, Field::Mask(s), 0);
    let n = layout::free_count(state);
    layout::put(state, Field::Idle(n), s.0);
    layout::put_free(state, n + 1);
}

// Steps 3 to 5 for one slot, which the ports in `sent` send.
fn settle_slot(
    state: &mut State,
    t: ClockReading,
    s: SlotAddress,
    sent: u8,
    counts: &mut [u16; Router::PORTS],
)
    requires state { (board8.get state.old free ≤ 256) × (sent ≤ board8.get state.old (Mask, s.0)) }
    requires counts { (p : ℕ) → p < 5 → get_or counts.old p 0 ≤ 256 }
    ensures counts { EachPort (slot_count board8 state.old t.0 s.0 sent counts.old) counts.new }
    ensures after { state.new ≡ slot_after board8 state.old t.0 s.0 sent }
{
    if sent == 0 && layout::get(state, Field::Deadline(s)) != t.0 {
        return;
    }
    let mask = layout::get(state, Field::Mask(s));
    if mask == 0 {
        return;
    }
    let left = mask - sent;
    if layout::get(state, Field::Deadline(s)) == t.0 {
        give_back(state, s);
        layout::change_ports(counts, left % 32, |count| count + 1);
        return;
    }
    if left == 0 {
        give_back(state, s);
        return;
    }
    layout::put(state, Field::Mask(s), left);
}

// Steps 3 to 5 for all slots, where the ports in `sent` send each; those from `end` on are empty. What is withdrawn is counted, port by port.
pub fn settle(state: &mut State, sent: &[u8; Router::SLOTS], end: usize) -> [u16; Router::PORTS]
    requires slots { EmptyFrom board8 state.old end }
    requires room { Room board8 state.old }
    requires sent { (i : ℕ) → get_or sent.now i 0 ≤ board8.get state.old (Mask, i) }
    ensures counts { EachPort (missed board8 state.old sent.now 256) result }
    ensures after { state.new ≡ settled board8 state.old sent.now 256 }
{
    let t = ClockReading(layout::get(state, Field::Clock));
    let mut counts = [0u16; Router::PORTS];
    for i in 0..end {
        settle_slot(state, t, SlotAddress(i as u8), sent[i], &mut counts);
    }
    counts
}
