// Step 1 of a tick: arrivals, port 0 first.
#![tactic(auto)]

ghost use Rattle.std.specs.Prelude.{◌≡◌, ◌∷◌, [], ◌*◌, ◌<◌, OnOk, OnErr};
ghost use Rattle.std.proofs.lemmas.List.Edits.{sets};
ghost use Rattle.rules.specs.Areas.{packet_length, payload, packed, per_port};
ghost use Rattle.rules.specs.Board.{free, board8};
ghost use Rattle.rules.specs.Tick.{arrival_refusal, arrival, placed, admitted, arrived};
ghost use Rattle.passes.specs.Room.{Room};
ghost use Rattle.passes.specs.Stores.{store};
ghost use Rattle.passes.specs.Arrivals.{in_time, met};
ghost use Rattle.arrive.specs.Numbers.{number_of, refusal_of, number};

use layout::{
    ClockReading, ConnectionId, Field, Memory, Packet, Packets, Port, Router, SlotAddress, State,
};

// The question that refuses an arrival: 6, 7 or 8.
#[derive(Clone, Copy, Debug, PartialEq, Eq)]
pub enum Refused {
    Closed,
    Late,
    Full,
}

impl From<Refused> for u8 {
    ghost from_gives = { λ refused number. number ≡ number_of refused };

    fn from(refused: Refused) -> u8 {
        match refused {
            Refused::Closed => 6,
            Refused::Late => 7,
            Refused::Full => 8,
        }
    }
}

// What an arrival meets: no packet, a slot, or a refusal.
pub type Arrival = Option<Result<(), Refused>>;

fn number(met: Arrival) -> u8
    ensures { result ≡ number met }
{
    match met {
        None => 0,
        Some(Ok(())) => 1,
        Some(Err(refused)) => refused.into(),
    }
}

// Question 7: is the offset at least -d?
fn in_time(state: &State, packet: &Packet) -> bool
    ensures { result ≡ in_time board8 state.now packet.now }
{
    let time = ClockReading(packet[1]);
    let t = ClockReading(layout::get(state, Field::Clock));
    let d = layout::get(state, Field::Delay(ConnectionId(packet[0])));
    clock::in_time(time, t, d)
}

// Questions 6 to 8.
fn meets(state: &State, packet: &Packet) -> Result<(), Refused>
    ensures { refusal_of result ≡ arrival_refusal board8 state.now packet.now }
{
    if layout::get(state, Field::Routes(ConnectionId(packet[0]))) == 0 {
        return Err(Refused::Closed);
    }
    if !in_time(state, packet) {
        return Err(Refused::Late);
    }
    if layout::free_count(state) == 0 {
        return Err(Refused::Full);
    }
    Ok(())
}

// The memory gets the packet with its outgoing identifier and its deadline.
fn store_packet(
    memory: &mut Memory,
    s: SlotAddress,
    identifier: ConnectionId,
    deadline: ClockReading,
    packet: &Packet,
)
    ensures { memory.new ≡ sets memory.old (packet_length * s.0) (packed 1 identifier.0 deadline.0 (payload 1 packet.now)) }
{
    let at = Router::PACKET * (s.0 as usize);
    layout::copy_in(packet, memory, at);
    memory[at] = identifier.0;
    memory[at + 1] = deadline.0;
}

// The accepted packet takes the top idle address.
// State and memory stay two parameters, here and below: the C interface lends them apart, and a struct of both would be built in each entry for these calls alone.
fn place(state: &mut State, memory: &mut Memory, packet: &Packet)
    requires { 0 < board8.get state.old free }
    ensures after { store state.new memory.new ≡ placed board8 (store state.old memory.old) packet.now }
    ensures room { Room board8 state.old → Room board8 state.new }
{
    let c = ConnectionId(packet[0]);
    let time = ClockReading(packet[1]);
    let deadline = clock::later(time, layout::get(state, Field::Delay(c)));
    let mask = layout::get(state, Field::Routes(c));
    let identifier = ConnectionId(layout::get(state, Field::Outgoing(c)));
    let n = layout::free_count(state) - 1;
    let s = SlotAddress(layout::get(state, Field::Idle(n)));
    store_packet(memory, s, identifier, deadline, packet);
    layout::put_free(state, n);
    layout::put(state, Field::Time(s), time.0);
    layout::put(state, Field::Deadline(s), deadline.0);
    layout::put(state, Field::Mask(s), mask);
}

// An arrival that passes the questions is placed.
fn take(state: &mut State, memory: &mut Memory, packet: &Packet) -> Result<(), Refused>
    ensures number { refusal_of result ≡ arrival_refusal board8 state.old packet.now }
    ensures ok { OnOk result (store state.new memory.new ≡ placed board8 (store state.old memory.old) packet.now) }
    ensures err { OnErr result (store state.new memory.new ≡ store state.old memory.old) }
    ensures room { Room board8 state.old → Room board8 state.new }
{
    meets(state, packet)?;
    place(state, memory, packet);
    Ok(())
}

// One port's arrival.
fn admit(
    state: &mut State,
    memory: &mut Memory,
    packet: &Packet,
    arriving: u8,
    port: Port,
) -> Arrival
    ensures number { number result ≡ arrival board8 state.old arriving port.index packet.now }
    ensures after { store state.new memory.new ≡ admitted board8 (store state.old memory.old) arriving port.index packet.now }
    ensures room { Room board8 state.old → Room board8 state.new }
{
    if layout::has_port(arriving, port) {
        Some(take(state, memory, packet))
    } else {
        None
    }
}

// Step 1 for the five ports, and what each meets.
pub fn arrive(
    state: &mut State,
    memory: &mut Memory,
    arrivals: &Packets,
    arriving: u8,
) -> [u8; Router::PORTS]
    ensures answers { result ≡ per_port (λ p. met board8 (store state.old memory.old) arriving arrivals.now p ∷ []) }
    ensures after { store state.new memory.new ≡ arrived board8 5 arriving arrivals.now (store state.old memory.old) }
    ensures room { Room board8 state.old → Room board8 state.new }
{
    let mut answers = [0u8; Router::PORTS];
    for p in 0..Router::PORTS {
        let a = Router::PACKET * p;
        let packet = arrivals[a..a + Router::PACKET].as_array().unwrap();
        let port = Port { index: p as u8 };
        answers[p] = number(admit(state, memory, packet, arriving, port));
    }
    answers
}
