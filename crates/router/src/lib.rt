// The router's entries: what the board firmware and the display software call.
#![tactic(auto)]

ghost use Rattle.std.specs.Prelude.{◌≡◌, take, drop};
ghost use Rattle.rules.specs.Areas.{number_reply, Outcome, Store};
ghost use Rattle.rules.specs.Board.{board8};
ghost use Rattle.rules.specs.Questions.{make_fresh, control_write, tick};
ghost use Rattle.layout.specs.Numbers.{answer_of};
ghost use Rattle.layout.specs.Version.{version};
ghost use Rattle.display.specs.Display.{display, display_start};

use control::Register;
use layout::{Refusal, Router, State};

// Makes state and memory those of a fresh router.
pub fn router_fresh(state: &mut [u8], memory: &mut [u8], clock: u8) -> Result<(), Refusal>
    ensures { ◌≡◌ {A = Outcome Store}
        (record { reply = number_reply (answer_of result); after = record { state = state.new; memory = memory.new } })
        (make_fresh board8 (record { state = state.old; memory = memory.old }) clock) }
{
    fresh::make_fresh(state, memory, clock)
}

// Writes a value to a control register.
pub fn router_control(
    state: &mut [u8],
    memory: &[u8],
    register: u8,
    value: u8,
) -> Result<(), Refusal>
    ensures { ◌≡◌ {A = Outcome Store}
        (record { reply = number_reply (answer_of result); after = record { state = state.new; memory = memory.now } })
        (control_write board8 (record { state = state.old; memory = memory.now }) register value) }
{
    questions::of_control(state, memory, register, value)?;
    let register = Register::try_from(register).unwrap();
    let state: &mut State = state.as_mut_array().unwrap();
    control::write_register(state, register, value);
    Ok(())
}

// One tick of the clock.
pub fn router_tick(
    state: &mut [u8],
    memory: &mut [u8],
    arrivals: &[u8],
    outgoing: &mut [u8],
    answers: &mut [u8],
    arriving: u8,
    waiting: u8,
) -> Result<(), Refusal>
    ensures { ◌≡◌ {A = Outcome Store}
        (record { reply = record { number = answer_of result; outgoing = outgoing.new; answers = answers.new }; after = record { state = state.new; memory = memory.new } })
        (tick board8 (record { state = state.old; memory = memory.old }) arriving waiting arrivals.now outgoing.old answers.old) }
{
    questions::of_tick(
        state, memory, arrivals, outgoing, answers, arriving, waiting,
    )?;
    tick::work(
        state.as_mut_array().unwrap(),
        memory.as_mut_array().unwrap(),
        arrivals.as_array().unwrap(),
        outgoing.as_mut_array().unwrap(),
        answers.as_mut_array().unwrap(),
        arriving,
        waiting,
    );
    Ok(())
}

// Where the display part of a port starts in the outgoing area; the area's length where it is empty.
pub fn router_display(outgoing: &[u8], port: u8) -> usize
    ensures start { result ≡ display_start 1 outgoing.now port }
    ensures part { take 18 (drop result outgoing.now) ≡ display 1 outgoing.now port }
{
    display::start(outgoing, port)
}

// The version of the archive.
pub fn router_version() -> u32
    ensures { result ≡ version }
{
    Router::VERSION
}
