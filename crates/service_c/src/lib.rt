// libservice.a: the service bench's entries for C, each a call of the library's function of that name.
// Signatures and clauses are the library's once more, since C calls only what its own crate exports: the C interface.
#![tactic(auto)]

ghost use Rattle.std.specs.Prelude.{◌≡◌};
ghost use Rattle.rules.specs.Areas.{number_reply, Outcome};
ghost use Rattle.rules.specs.Board.{board8};
ghost use Rattle.rules.specs.Questions.{service_fault};
ghost use Rattle.layout.specs.Version.{version};
ghost use Rattle.passes.specs.Stores.{store};
ghost use Rattle.queues.specs.Engine.{Bench, fill, control, tick};

// Names the fault of a state, which it only reads; of stored packets the lowest bad slot with it.
#[unsafe(no_mangle)]
pub extern "C" fn router_fault(state: &[u8], memory: &[u8]) -> u16
    ensures { result ≡ service_fault board8 (store state.now memory.now) }
{
    service::router_fault(state, memory).map_or(0, u16::from)
}

// Fills the queues from a sound state.
#[unsafe(no_mangle)]
pub extern "C" fn router_queues_fill(state: &[u8], memory: &[u8], queues: &mut [u8]) -> u8
    ensures { ◌≡◌ {A = Outcome Bench}
        (record { reply = number_reply result; after = record { store = store state.now memory.now; queues = queues.new } })
        (fill board8 (record { store = store state.now memory.now; queues = queues.old })) }
{
    layout::number(service::router_queues_fill(state, memory, queues))
}

// Writes a value to a control register.
#[unsafe(no_mangle)]
pub extern "C" fn router_queues_control(
    state: &mut [u8],
    memory: &[u8],
    queues: &[u8],
    register: u8,
    value: u8,
) -> u8
    ensures { ◌≡◌ {A = Outcome Bench}
        (record { reply = number_reply result; after = record { store = store state.new memory.now; queues = queues.now } })
        (control board8 (record { store = store state.old memory.now; queues = queues.now }) register value) }
{
    layout::number(service::router_queues_control(state, memory, queues, register, value))
}

// One tick of the clock.
#[unsafe(no_mangle)]
pub extern "C" fn router_queues_tick(
    state: &mut [u8],
    memory: &mut [u8],
    queues: &mut [u8],
    arrivals: &[u8],
    outgoing: &mut [u8],
    answers: &mut [u8],
    arriving: u8,
    waiting: u8,
) -> u8
    ensures { ◌≡◌ {A = Outcome Bench}
        (record { reply = record { number = result; outgoing = outgoing.new; answers = answers.new }; after = record { store = store state.new memory.new; queues = queues.new } })
        (tick board8 (record { store = store state.old memory.old; queues = queues.old }) arriving waiting arrivals.now outgoing.old answers.old) }
{
    layout::number(service::router_queues_tick(
        state, memory, queues, arrivals, outgoing, answers, arriving, waiting,
    ))
}

// The version of this archive.
#[unsafe(no_mangle)]
pub extern "C" fn service_version() -> u32
    ensures { result ≡ version }
{
    service::service_version()
}
