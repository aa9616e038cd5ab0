// What the service bench calls: the entry that names a fault, and those of the queue engine.
#![tactic(auto)]

ghost use Rattle.std.specs.Prelude.{◌≡◌};
ghost use Rattle.rules.specs.Areas.{number_reply, Outcome};
ghost use Rattle.rules.specs.Board.{board8};
ghost use Rattle.rules.specs.Questions.{service_fault};
ghost use Rattle.layout.specs.Numbers.{answer_of};
ghost use Rattle.layout.specs.Version.{version};
ghost use Rattle.passes.specs.Stores.{store};
ghost use Rattle.queues.specs.Engine.{Bench, fill, control, tick};
ghost use Rattle.service.specs.Faults.{fault_number, fault_answer};

use control::Register;
use layout::{Refusal, Router, SlotAddress, State};

// What is wrong with a state: a question that it fails, or of stored packets the lowest bad slot.
#[derive(Clone, Copy)]
pub enum Fault {
    Question(Refusal),
    Packet(SlotAddress),
}

impl From<Fault> for u16 {
    ghost from_gives = { λ fault number. number ≡ fault_number fault };

    fn from(fault: Fault) -> u16 {
        match fault {
            Fault::Question(refusal) => u8::from(refusal).into(),
            Fault::Packet(slot) => 15 + 256 * u16::from(slot.0),
        }
    }
}

// Names the fault of a state, which it only reads; of stored packets the lowest bad slot with it.
pub fn router_fault(state: &[u8], memory: &[u8]) -> Option<Fault>
    ensures { fault_answer result ≡ service_fault board8 (store state.now memory.now) }
{
    match questions::of_store(state, memory).err()? {
        Refusal::Packets => {
            let slot = sound::lowest_bad(state.as_array().unwrap(), memory.as_array().unwrap())?;
            Some(Fault::Packet(slot))
        }
        refusal => Some(Fault::Question(refusal)),
    }
}

// Fills the queues from a sound state.
pub fn router_queues_fill(state: &[u8], memory: &[u8], queues: &mut [u8]) -> Result<(), Refusal>
    ensures { ◌≡◌ {A = Outcome Bench}
        (record { reply = number_reply (answer_of result); after = record { store = store state.now memory.now; queues = queues.new } })
        (fill board8 (record { store = store state.now memory.now; queues = queues.old })) }
{
    let Some(area) = queues.as_mut_array() else {
        return Err(Refusal::Lengths);
    };
    questions::of_store(state, memory)?;
    let state: &State = state.as_array().unwrap();
    table1::fill(area, state);
    Ok(())
}

// Writes a value to a control register.
pub fn router_queues_control(
    state: &mut [u8],
    memory: &[u8],
    queues: &[u8],
    register: u8,
    value: u8,
) -> Result<(), Refusal>
    ensures { ◌≡◌ {A = Outcome Bench}
        (record { reply = number_reply (answer_of result); after = record { store = store state.new memory.now; queues = queues.now } })
        (control board8 (record { store = store state.old memory.now; queues = queues.now }) register value) }
{
    let Some(queues) = queues.as_array() else {
        return Err(Refusal::Lengths);
    };
    questions::of_control(state, memory, register, value)?;
    if !fitting::fitting(state.as_array().unwrap(), queues) {
        return Err(Refusal::Queues);
    }
    control::write_register(state, Register::try_from(register).unwrap(), value);
    Ok(())
}

// One tick of the clock.
pub fn router_queues_tick(
    state: &mut [u8],
    memory: &mut [u8],
    queues: &mut [u8],
    arrivals: &[u8],
    outgoing: &mut [u8],
    answers: &mut [u8],
    arriving: u8,
    waiting: u8,
) -> Result<(), Refusal>
    ensures { ◌≡◌ {A = Outcome Bench}
        (record { reply = record { number = answer_of result; outgoing = outgoing.new; answers = answers.new }; after = record { store = store state.new memory.new; queues = queues.new } })
        (tick board8 (record { store = store state.old memory.old; queues = queues.old }) arriving waiting arrivals.now outgoing.old answers.old) }
{
    let Some(queues) = queues.as_mut_array() else {
        return Err(Refusal::Lengths);
    };
    questions::of_tick(
        state, memory, arrivals, outgoing, answers, arriving, waiting,
    )?;
    let state = state.as_mut_array().unwrap();
    if !fitting::fitting(state, queues) {
        return Err(Refusal::Queues);
    }
    engine::work(
        state,
        memory.as_mut_array().unwrap(),
        queues,
        arrivals.as_array().unwrap(),
        outgoing.as_mut_array().unwrap(),
        answers.as_mut_array().unwrap(),
        arriving,
        waiting,
    );
    Ok(())
}

// The version of the archive.
pub fn service_version() -> u32
    ensures { result ≡ version }
{
    Router::VERSION
}
