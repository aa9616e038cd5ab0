// A fresh router, made in the lent state and memory.
#![tactic(auto)]

ghost use Rattle.std.specs.Prelude.{◌≡◌, length, replicate};
ghost use Rattle.rules.specs.Areas.{number_reply, Outcome, Store};
ghost use Rattle.rules.specs.Board.{board8};
ghost use Rattle.rules.specs.Questions.{make_fresh};
ghost use Rattle.passes.specs.Stores.{store};
ghost use Rattle.layout.specs.Numbers.{answer_of};
ghost use Rattle.layout.specs.Slots.{empty};
ghost use Rattle.fresh.specs.Slots.{emptied};

use layout::{ClockReading, Field, Refusal, Router, Slot, SlotAddress};

// Copies the slots of a fresh router, each to its place from its time on.
fn put_slots(state: &mut [u8], slots: [Slot; Router::SLOTS])
    requires { (length state.old ≡ board8.state_length) × (slots ≡ replicate 256 empty) }
    ensures { state.new ≡ emptied 256 state.old }
{
    for (i, slot) in slots.iter().enumerate() {
        let at = layout::place(Field::Time(SlotAddress(i as u8)));
        layout::copy_in(&slot.0, state, at);
    }
}

// Makes state and memory those of a fresh router.
pub fn make_fresh(state: &mut [u8], memory: &mut [u8], clock: u8) -> Result<(), Refusal>
    ensures { ◌≡◌ {A = Outcome Store}
        (record { reply = number_reply (answer_of result); after = store state.new memory.new })
        (make_fresh board8 (store state.old memory.old) clock) }
{
    if state.len() != Router::STATE || memory.len() != Router::MEMORY {
        return Err(Refusal::Lengths);
    }
    let router = Router::fresh(ClockReading(clock));
    state.copy_from_slice(&router.bytes);
    put_slots(state, router.slots);
    layout::clear(memory);
    Ok(())
}
