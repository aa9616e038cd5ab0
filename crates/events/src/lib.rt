// A tape between its records, and what a record comes to.
#![tactic(auto)]

ghost use Rattle.std.specs.Prelude.{◌≡◌, List, false, ℕ, ◌+◌, ◌^◌, ◌<◌, length};
ghost use Rattle.rules.specs.Areas.{has, byte};
ghost use Rattle.records.specs.Records.{record_length};
ghost use Rattle.events.specs.Tape as Rules;
ghost use Rattle.events.specs.declared.Refused.TheVariants.{Record, Call};
ghost use Rattle.events.specs.declared.Pending.{Pending};
ghost use Rattle.events.specs.Values.{tape_in, tape_of, taken_in, taken_of, refused_number};

use layout::{Answers, ClockReading, Field, Memory, Packets, Port, Router, State};
use records::Kind;

// The ports with an arrival for the coming tick, and the number of the record that brought each. The numbers outlive the mask, which a tick clears: what it refuses is told of them.
#[derive(Clone, Copy)]
pub struct Pending {
    pub mask: u8,
    pub records: [u64; Router::PORTS],
}

// Why a record is refused: by its own questions, or by those of the router's call.
#[derive(Clone, Copy, Debug, PartialEq, Eq)]
pub enum Refused {
    Record(records::Refusal),
    Call(layout::Refusal),
}

impl From<records::Refusal> for Refused {
    ghost from_gives = { λ why refused. refused ≡ Record why };

    fn from(why: records::Refusal) -> Refused {
        Refused::Record(why)
    }
}

impl From<layout::Refusal> for Refused {
    ghost from_gives = { λ why refused. refused ≡ Call why };

    fn from(why: layout::Refusal) -> Refused {
        Refused::Call(why)
    }
}

impl From<Refused> for u8 {
    ghost from_gives = { λ refused number. number ≡ refused_number refused };

    fn from(refused: Refused) -> u8 {
        match refused {
            Refused::Record(refusal) => refusal.into(),
            Refused::Call(refusal) => refusal.into(),
        }
    }
}

// What a record comes to: a refusal, nothing to tell, or an accepted tick with the clock before it.
pub type Event = Result<Option<ClockReading>, Refused>;

// What an accepted tick sends, and its answers.
#[derive(Clone, Copy)]
pub struct Reply {
    pub outgoing: Packets,
    pub answers: Answers,
}

// A tape between its records: the router's areas, of any lengths, since the router itself refuses those of others, and the arrivals that wait for the coming tick.
#[derive(Clone, Copy)]
pub struct Tape<const S: usize, const M: usize> {
    pub state: [u8; S],
    pub memory: [u8; M],
    pub arrivals: Packets,
    pub pending: Pending,
}

// With areas of the router's own lengths.
pub type RouterTape = Tape<{ Router::STATE }, { Router::MEMORY }>;

// A tape's beginning: a fresh router at clock 0, and no arrival that waits.
pub fn begin(state: &mut State, memory: &mut Memory, arrivals: &mut Packets) -> Pending
    ensures { tape_in state.new memory.new arrivals.new result ≡ Rules.start }
{
    router::router_fresh(state, memory, 0).unwrap();
    *arrivals = [0; Router::ARRIVALS];
    Pending {
        mask: 0,
        records: [0; Router::PORTS],
    }
}

impl RouterTape {
    // The same in areas of its own.
    pub fn begin() -> RouterTape
        ensures { tape_of result ≡ Rules.start }
    {
        let mut state = [0u8; Router::STATE];
        let mut memory = [0u8; Router::MEMORY];
        let mut arrivals = [0u8; Router::ARRIVALS];
        let pending = begin(&mut state, &mut memory, &mut arrivals);
        Tape {
            state,
            memory,
            arrivals,
            pending,
        }
    }
}

// The mask with a port that it has not yet.
fn with_port(mask: u8, port: Port) -> u8
    requires { has mask port.index ≡ false }
    ensures { result ≡ mask + 2 ^ port.index }
{
    mask + (1 << port.index)
}

#[tactic(auto, unfolding(crate::specs::Tape::take_control))]
fn take_control(state: &mut [u8], memory: &[u8], bytes: &[u8]) -> Event
    ensures { (arrivals out ans : List ℕ) (k : ℕ) (w : Pending) → taken_in k state.new memory.now arrivals w result out ans ≡ Rules.take_control (tape_in state.old memory.now arrivals w) k bytes.now }
{
    let register = layout::byte(bytes, 1);
    let value = layout::byte(bytes, 2);
    router::router_control(state, memory, register, value)?;
    Ok(None)
}

#[tactic(auto, unfolding(crate::specs::Tape::take_arrival))]
fn take_arrival(arrivals: &mut Packets, pending: &mut Pending, number: u64, bytes: &[u8])
    requires whole { length bytes.now ≡ record_length }
    requires port { byte bytes.now 1 < 5 }
    requires free { has pending.old.mask (byte bytes.now 1) ≡ false }
    ensures { (state memory : List ℕ) → ◌≡◌ {A = Rules.Taken} (record { tape = tape_in state memory arrivals.new pending.new; event = Rules.nothing }) (Rules.take_arrival (tape_in state memory arrivals.old pending.old) number bytes.now) }
{
    let port = Port { index: bytes[1] };
    let place = port.index as usize;
    pending.mask = with_port(pending.mask, port);
    pending.records[place] = number;
    layout::copy_in(&bytes[4..], arrivals, Router::PACKET * place);
}

// A tick; an accepted one leaves what it sends and its answers in the lent areas, a refused one keeps the arrivals that wait.
fn take_tick(
    state: &mut [u8],
    memory: &mut [u8],
    arrivals: &Packets,
    pending: &mut Pending,
    bytes: &[u8],
    outgoing: &mut Packets,
    answers: &mut Answers,
) -> Event
    ensures { (k : ℕ) → taken_in k state.new memory.new arrivals.now pending.new result outgoing.new answers.new ≡ Rules.take_tick (tape_in state.old memory.old arrivals.now pending.old) k bytes.now }
{
    let clock = layout::get(state, Field::Clock);
    let waiting = layout::byte(bytes, 1);
    router::router_tick(
        state,
        memory,
        arrivals,
        outgoing,
        answers,
        pending.mask,
        waiting,
    )?;
    pending.mask = 0;
    Ok(Some(ClockReading(clock)))
}

// One record: its questions, then what its kind does. An accepted tick leaves what it sends and its answers in the lent areas. The router's areas may have any lengths.
#[tactic(auto, unfolding(crate::specs::Tape::take_record))]
pub fn take_record(
    state: &mut [u8],
    memory: &mut [u8],
    arrivals: &mut Packets,
    pending: &mut Pending,
    number: u64,
    bytes: &[u8],
    outgoing: &mut Packets,
    answers: &mut Answers,
) -> Event
    ensures { taken_in number state.new memory.new arrivals.new pending.new result outgoing.new answers.new ≡ Rules.take_record (tape_in state.old memory.old arrivals.old pending.old) number bytes.now }
{
    match records::questions(pending.mask, bytes)? {
        Kind::Control => take_control(state, memory, bytes),
        Kind::Arrival => {
            take_arrival(arrivals, pending, number, bytes);
            Ok(None)
        }
        Kind::Tick => take_tick(state, memory, arrivals, pending, bytes, outgoing, answers),
    }
}

impl<const S: usize, const M: usize> Tape<S, M> {
    // One record: its questions, then what its kind does. An accepted tick leaves its reply in the lent one.
    pub fn take_record(&mut self, number: u64, bytes: &[u8], reply: &mut Reply) -> Event
        ensures { taken_of number self.new result reply.new.outgoing reply.new.answers ≡ Rules.take_record (tape_of self.old) number bytes.now }
    {
        take_record(
            &mut self.state,
            &mut self.memory,
            &mut self.arrivals,
            &mut self.pending,
            number,
            bytes,
            &mut reply.outgoing,
            &mut reply.answers,
        )
    }
}
