// librouter.a: the router's entries for C, each a call of the library's function of that name.
// Signatures and clauses are the library's once more, since C calls only what its own crate exports: the C interface.
#![tactic(auto)]

ghost use Rattle.std.specs.Prelude.{◌≡◌, take, drop};
ghost use Rattle.rules.specs.Areas.{number_reply, Outcome, Store};
ghost use Rattle.rules.specs.Board.{board8};
ghost use Rattle.rules.specs.Questions.{make_fresh, control_write, tick};
ghost use Rattle.layout.specs.Version.{version};
ghost use Rattle.display.specs.Display.{display, display_start};

// Makes state and memory those of a fresh router.
#[unsafe(no_mangle)]
pub extern "C" fn router_fresh(state: &mut [u8], memory: &mut [u8], clock: u8) -> u8
    ensures { ◌≡◌ {A = Outcome Store}
        (record { reply = number_reply result; after = record { state = state.new; memory = memory.new } })
        (make_fresh board8 (record { state = state.old; memory = memory.old }) clock) }
{
    layout::number(router::router_fresh(state, memory, clock))
}

// Writes a value to a control register.
#[unsafe(no_mangle)]
pub extern "C" fn router_control(state: &mut [u8], memory: &[u8], register: u8, value: u8) -> u8
    ensures { ◌≡◌ {A = Outcome Store}
        (record { reply = number_reply result; after = record { state = state.new; memory = memory.now } })
        (control_write board8 (record { state = state.old; memory = memory.now }) register value) }
{
    layout::number(router::router_control(state, memory, register, value))
}

// One tick of the clock.
#[unsafe(no_mangle)]
pub extern "C" fn router_tick(
    state: &mut [u8],
    memory: &mut [u8],
    arrivals: &[u8],
    outgoing: &mut [u8],
    answers: &mut [u8],
    arriving: u8,
    waiting: u8,
) -> u8
    ensures { ◌≡◌ {A = Outcome Store}
        (record { reply = record { number = result; outgoing = outgoing.new; answers = answers.new }; after = record { state = state.new; memory = memory.new } })
        (tick board8 (record { state = state.old; memory = memory.old }) arriving waiting arrivals.now outgoing.old answers.old) }
{
    layout::number(router::router_tick(
        state, memory, arrivals, outgoing, answers, arriving, waiting,
    ))
}

// Where the display part of a port starts in the outgoing area; the area's length where it is empty.
#[unsafe(no_mangle)]
pub extern "C" fn router_display(outgoing: &[u8], port: u8) -> usize
    ensures start { result ≡ display_start 1 outgoing.now port }
    ensures part { take 18 (drop result outgoing.now) ≡ display 1 outgoing.now port }
{
    router::router_display(outgoing, port)
}

// The version of this archive.
#[unsafe(no_mangle)]
pub extern "C" fn router_version() -> u32
    ensures { result ≡ version }
{
    router::router_version()
}
