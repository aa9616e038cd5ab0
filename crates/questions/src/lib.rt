// The questions of a control write and of a tick, in their order.
#![tactic(auto)]

ghost use Rattle.std.specs.Prelude.{◌≡◌, ◌∷◌, length, OnOk};
ghost use Rattle.rules.specs.Areas.{memory_length, areas_full, asked, control_questions, tick_questions};
ghost use Rattle.rules.specs.Board.{board8};
ghost use Rattle.rules.specs.Questions.{full, sound_questions, control_refusal, tick_refusal};
ghost use Rattle.passes.specs.Room.{Room, Lent};
ghost use Rattle.passes.specs.Stores.{store};
ghost use Rattle.layout.specs.Numbers.{answer_of};

use control::Register;
use layout::{Refusal, Router};

// 1: do the areas of a tick besides state and memory have their lengths?
fn areas_full(arrivals: &[u8], outgoing: &[u8], answers: &[u8]) -> bool
    ensures { result ≡ areas_full arrivals.now outgoing.now answers.now }
{
    arrivals.len() == Router::ARRIVALS
        && outgoing.len() == Router::OUTGOING
        && answers.len() == Router::ANSWERS
}

// What a control write is asked besides its store: is the register 0-5 (4), does the value fit it (5)?
fn control_questions(register: u8, value: u8) -> Result<(), Refusal>
    ensures { answer_of result ≡ asked (control_questions 1 register value) }
{
    if !Register::try_from(register)?.fits(value) {
        return Err(Refusal::Value);
    }
    Ok(())
}

// What a tick is asked besides its areas: are both masks at most 31 (3)?
fn tick_questions(arriving: u8, waiting: u8) -> Result<(), Refusal>
    ensures { answer_of result ≡ asked (tick_questions arriving waiting) }
{
    if arriving <= Router::ALL_PORTS && waiting <= Router::ALL_PORTS {
        Ok(())
    } else {
        Err(Refusal::Masks)
    }
}

// 1 and 13 to 15: do state and memory have their lengths, and are they sound? What passes has room.
pub fn of_store(state: &[u8], memory: &[u8]) -> Result<(), Refusal>
    ensures number { answer_of result ≡ asked ((full board8 (store state.now memory.now), 1) ∷ sound_questions board8 15 (store state.now memory.now)) }
    ensures whole { OnOk result ((length state.now ≡ board8.state_length) × (length memory.now ≡ memory_length) × Room board8 state.now) }
{
    let (Some(state), Some(memory)) = (state.as_array(), memory.as_array()) else {
        return Err(Refusal::Lengths);
    };
    sound::fault(state, memory)
}

// The questions of a control write.
pub fn of_control(state: &[u8], memory: &[u8], register: u8, value: u8) -> Result<(), Refusal>
    ensures { answer_of result ≡ control_refusal board8 (store state.now memory.now) register value }
{
    of_store(state, memory)?;
    control_questions(register, value)
}

// The questions of a tick; what passes them is whole and has room.
pub fn of_tick(
    state: &[u8],
    memory: &[u8],
    arrivals: &[u8],
    outgoing: &[u8],
    answers: &[u8],
    arriving: u8,
    waiting: u8,
) -> Result<(), Refusal>
    ensures number { answer_of result ≡ tick_refusal board8 (store state.now memory.now) arriving waiting arrivals.now outgoing.now answers.now }
    ensures lengths { OnOk result (Lent board8 state.now memory.now arrivals.now outgoing.now answers.now) }
{
    if !areas_full(arrivals, outgoing, answers) {
        return Err(Refusal::Lengths);
    }
    of_store(state, memory)?;
    tick_questions(arriving, waiting)
}
