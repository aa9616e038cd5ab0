// The layout of what the router is lent: its sizes, the numbers of refusals, the fields of the state, a port's bit, and a copy.
#![tactic(auto)]

ghost use Rattle.std.specs.Prelude.{◌≡◌, ◌+◌, ◌*◌, ◌/◌, ◌%◌, ◌^◌, ◌≤◌, ◌<◌, ◌↔◌, ℕ, false, IsTrue, IsSome, IfSome, length, get_or, slice_index_or, set, replicate};
ghost use Rattle.std.proofs.lemmas.List.Edits.{sets};
ghost use Rattle.rules.specs.Areas.{has};
ghost use Rattle.rules.specs.Board.{Time, Deadline, free, board8, table8};
ghost use Rattle.layout.specs.Fields.{field_of};
ghost use Rattle.layout.specs.Numbers.{number_of, answer_of};
ghost use Rattle.layout.specs.Slots.{empty};

// One byte each, and none may serve as another.
#[derive(Clone, Copy)]
pub struct SlotAddress(pub u8);

#[derive(Clone, Copy)]
pub struct ConnectionId(pub u8);

#[derive(Clone, Copy)]
pub struct ClockReading(pub u8);

// A port, 0 to 4.
#[derive(Clone, Copy, Debug, PartialEq, Eq)]
pub struct Port {
    pub index: u8,
    ghost in_range: { index < 5 },
}

impl Port {
    // How many there are, for a loop over their indices.
    pub const COUNT: u8 = Router::PORTS as u8;

    // The port of that index, if there is one.
    pub fn new(index: u8) -> Option<Port>
        ensures found { IsSome result ↔ (index < 5) }
        ensures port { IfSome result (λ port. port.index ≡ index) }
    {
        if index < Port::COUNT {
            Some(Port { index })
        } else {
            None
        }
    }
}

// A slot's three bytes: logical arrival time, deadline, mask of ports still to serve.
#[derive(Clone, Copy)]
pub struct Slot(pub [u8; 3]);

// The areas that a board lends, a packet, and the answers of a tick.
pub type State = [u8; Router::STATE];

pub type Memory = [u8; Router::MEMORY];

// The arrivals of five ports, or what they send.
pub type Packets = [u8; Router::ARRIVALS];

pub type Answers = [u8; Router::ANSWERS];

pub type Packet = [u8; Router::PACKET];

// A router before it is copied to the lent area: the bytes of its state, and its slots.
#[derive(Clone, Copy)]
pub struct Router {
    pub bytes: [u8; Router::STATE],
    pub slots: [Slot; Router::SLOTS],
}

impl Router {
    // The version of the archives, as include/router.h writes it.
    pub const VERSION: u32 = 30100;

    // Counts, and bytes of a packet and of each area.
    pub const PORTS: usize = 5;

    pub const SLOTS: usize = 256;

    pub const CONNECTIONS: usize = 256;

    // For a loop: a usize takes two registers of a 32-bit processor.
    pub const SLOT_COUNT: u32 = Router::SLOTS as u32;

    pub const CONNECTION_COUNT: u32 = Router::CONNECTIONS as u32;

    pub const PACKET: usize = 20;

    // A packet's data, after its identifier and its time.
    pub const DATA: usize = 18;

    pub const STATE: usize = 1804;

    pub const MEMORY: usize = 5120;

    pub const ARRIVALS: usize = 100;

    pub const OUTGOING: usize = 100;

    pub const ANSWERS: usize = 20;

    // The largest mask, the last register, and half the clock's turn, below which delays and horizons are.
    pub const ALL_PORTS: u8 = 31;

    pub const LAST_REGISTER: u8 = 5;

    pub const HALF: u8 = 128;

    pub const EMPTY: Slot = Slot([0u8; 3]);

    pub fn fresh(clock: ClockReading) -> Router
        ensures { (result.bytes ≡ board8.fresh_state clock.0) × (result.slots ≡ replicate 256 empty) }
    {
        let mut bytes = [0u8; Router::STATE];
        bytes[0] = clock.0;
        bytes[10] = 1;
        for i in 0..Router::SLOTS {
            bytes[12 + i] = (255 - i) as u8;
        }
        let slots = [Router::EMPTY; Router::SLOTS];
        Router { bytes, slots }
    }
}

// The question that stops a call.
#[derive(Clone, Copy, Debug, PartialEq, Eq)]
pub enum Refusal {
    Lengths,
    Settings,
    Stack,
    Packets,
    Masks,
    Register,
    Value,
    Queues,
}

impl From<Refusal> for u8 {
    ghost from_gives = { λ refusal number. number ≡ number_of refusal };

    fn from(refusal: Refusal) -> u8 {
        match refusal {
            Refusal::Lengths => 1,
            Refusal::Settings => 13,
            Refusal::Stack => 14,
            Refusal::Packets => 15,
            Refusal::Masks => 3,
            Refusal::Register => 4,
            Refusal::Value => 5,
            Refusal::Queues => 21,
        }
    }
}

// What a call answers in C: 0, or the number of its refusal.
pub fn number(answer: Result<(), Refusal>) -> u8
    ensures { result ≡ answer_of answer }
{
    match answer {
        Ok(()) => 0,
        Err(refusal) => refusal.into(),
    }
}

// The fields of one byte.
#[derive(Clone, Copy)]
pub enum Field {
    Clock,
    Horizon(u8),
    Latch(u8),
    Idle(u16),
    Time(SlotAddress),
    Deadline(SlotAddress),
    Mask(SlotAddress),
    Outgoing(ConnectionId),
    Delay(ConnectionId),
    Routes(ConnectionId),
}

// Every third place from a first one on.
fn third(first: usize, i: u8) -> usize
    requires { first ≤ 1038 }
    ensures { result ≡ first + 3 * i }
{
    first + 3 * (i as usize)
}

// Where a field starts in the state.
pub fn place(f: Field) -> usize
    ensures { result ≡ (table8 (field_of f)).0 }
{
    match f {
        Field::Clock => 0,
        Field::Horizon(p) => 1 + p as usize,
        Field::Latch(r) => 6 + r as usize,
        Field::Idle(i) => 12 + i as usize,
        Field::Time(s) => third(268, s.0),
        Field::Deadline(s) => third(269, s.0),
        Field::Mask(s) => third(270, s.0),
        Field::Outgoing(c) => third(1036, c.0),
        Field::Delay(c) => third(1037, c.0),
        Field::Routes(c) => third(1038, c.0),
    }
}

// The byte at a place, 0 past the end.
pub fn byte(area: &[u8], at: usize) -> u8
    ensures { result ≡ get_or area.now at 0 }
{
    area.get(at).copied().unwrap_or(0)
}

// Stores a byte at a place, nothing past the end.
pub fn put_byte(area: &mut [u8], at: usize, b: u8)
    ensures { area.new ≡ set area.old at b }
{
    if at < area.len() {
        area[at] = b;
    }
}

// The two bytes from a place on as a number, high first.
pub fn pair(area: &[u8], at: usize) -> u16
    requires { at < 2 ^ 32 }
    ensures { result ≡ get_or area.now at 0 * 256 + get_or area.now (at + 1) 0 }
{
    u16::from_be_bytes([byte(area, at), byte(area, at + 1)])
}

// Stores a number in the two bytes from a place on, high first.
pub fn put_pair(area: &mut [u8], at: usize, n: u16)
    requires { at < 2 ^ 32 }
    ensures { area.new ≡ set (set area.old at (n / 256)) (at + 1) (n % 256) }
{
    let [high, low] = n.to_be_bytes();
    put_byte(area, at, high);
    put_byte(area, at + 1, low);
}

// Copies all of src into dst from a place on.
pub fn copy_in(src: &[u8], dst: &mut [u8], at: usize)
    requires { at + length src.now ≤ length dst.old }
    ensures { dst.new ≡ sets dst.old at src.now }
{
    dst[at..at + src.len()].copy_from_slice(src);
}

// Stores zero in every byte.
pub fn clear(area: &mut [u8])
    ensures { area.new ≡ replicate (length area.old) 0 }
{
    area.fill(0);
}

pub fn get(state: &[u8], f: Field) -> u8
    ensures { result ≡ board8.get state.now (field_of f) }
{
    byte(state, place(f))
}

// A slot's logical arrival time and its deadline.
#[derive(Clone, Copy)]
pub struct SlotTimes {
    pub time: ClockReading,
    pub deadline: ClockReading,
}

// Both, with one test of the length, which is the same for every slot.
pub fn times(state: &[u8], s: SlotAddress) -> SlotTimes
    ensures { (result.time.0 ≡ board8.get state.now (Time, s.0)) × (result.deadline.0 ≡ board8.get state.now (Deadline, s.0)) }
{
    let at = place(Field::Time(s));
    if Router::STATE <= state.len() {
        return SlotTimes {
            time: ClockReading(state[at]),
            deadline: ClockReading(state[at + 1]),
        };
    }
    SlotTimes {
        time: ClockReading(get(state, Field::Time(s))),
        deadline: ClockReading(get(state, Field::Deadline(s))),
    }
}

pub fn put(state: &mut [u8], f: Field, b: u8)
    ensures { state.new ≡ board8.put state.old (field_of f) b }
{
    put_byte(state, place(f), b);
}

pub fn free_count(state: &State) -> u16
    ensures { result ≡ board8.get state.now free }
{
    pair(state, 10)
}

pub fn put_free(state: &mut State, n: u16)
    ensures { state.new ≡ board8.put state.old free n }
{
    put_pair(state, 10, n);
}

pub fn has_port(mask: u8, port: Port) -> bool
    ensures { result ≡ has mask port.index }
{
    (mask >> port.index) % 2 == 1
}

// Changes by f the cell of each port in the mask, the lowest port first.
// Not a `for` over the five cells with a test of the port: `tick-256-idle` of docs/BENCH.md took 21,874 instructions by it, plain C's takes 19,230, and this 18,802.
pub fn change_ports<T: Copy, F: Fn(T) -> T>(cells: &mut [T; Router::PORTS], mask: u8, f: F)
    requires ports { mask < 32 }
    requires callable { (p : ℕ) (x : T) → p < 5 → IsTrue (has mask p) → F.pre f (slice_index_or cells.old p x) }
    ensures changed { (p : ℕ) (x : T) → p < 5 → IsTrue (has mask p) → F.post f (slice_index_or cells.old p x) (slice_index_or cells.new p x) }
    ensures rest { (p : ℕ) (x : T) → p < 5 → has mask p ≡ false → slice_index_or cells.new p x ≡ slice_index_or cells.old p x }
{
    let mut left = mask;
    while left != 0 {
        let p = left.trailing_zeros() as usize;
        cells[p] = f(cells[p]);
        left = left & (left - 1);
    }
}
