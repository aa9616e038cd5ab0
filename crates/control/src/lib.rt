// Control writes: the registers, the control latch, the two commits, and which value fits a register.
#![tactic(auto)]

ghost use Rattle.std.specs.Prelude.{◌≡◌};
ghost use Rattle.rules.specs.Areas.{fits};
ghost use Rattle.rules.specs.Board.{Latch as LatchField, board8};
ghost use Rattle.rules.specs.Questions.{commit_entry, commit_horizon, written};
ghost use Rattle.control.specs.Latches.{latch_of, latch_with};
ghost use Rattle.control.specs.Registers.{register_number, Names};

use layout::{ConnectionId, Field, Port, Refusal, Router};

// The control registers, 0 to 5 in this order. `Connection` and `Horizon` are commits; the others are stored.
#[derive(Clone, Copy, Debug, PartialEq, Eq)]
pub enum Register {
    Outgoing,
    Delay,
    Routes,
    Connection,
    Ports,
    Horizon,
}

impl From<Register> for u8 {
    ghost from_gives = { λ register number. number ≡ register_number register };

    fn from(register: Register) -> u8 {
        match register {
            Register::Outgoing => 0,
            Register::Delay => 1,
            Register::Routes => 2,
            Register::Connection => 3,
            Register::Ports => 4,
            Register::Horizon => 5,
        }
    }
}

impl TryFrom<u8> for Register {
    type Error = Refusal;

    ghost try_from_gives = { Names };

    fn try_from(number: u8) -> Result<Register, Refusal> {
        match number {
            0 => Ok(Register::Outgoing),
            1 => Ok(Register::Delay),
            2 => Ok(Register::Routes),
            3 => Ok(Register::Connection),
            4 => Ok(Register::Ports),
            5 => Ok(Register::Horizon),
            _ => Err(Refusal::Register),
        }
    }
}

impl Register {
    // Does the value fit the register?
    #[tactic(auto, unfolding(rules::specs::Areas::fits, rules::specs::Areas::half))]
    pub fn fits(self, value: u8) -> bool
        ensures { result ≡ fits 1 (register_number self) value }
    {
        match self {
            Register::Delay | Register::Horizon => value < Router::HALF,
            Register::Routes | Register::Ports => value <= Router::ALL_PORTS,
            Register::Outgoing | Register::Connection => true,
        }
    }
}

// The control latch: the bytes last written to registers 0, 1, 2 and 4, which wait for a commit.
#[derive(Clone, Copy)]
pub struct Latch {
    pub outgoing: u8,
    pub delay: u8,
    pub routes: u8,
    pub horizons: u8,
}

impl Latch {
    // The latch that the state holds.
    pub fn read(state: &[u8]) -> Latch
        ensures { result ≡ latch_of state.now }
    {
        Latch {
            outgoing: layout::get(state, Field::Latch(0)),
            delay: layout::get(state, Field::Latch(1)),
            routes: layout::get(state, Field::Latch(2)),
            horizons: layout::get(state, Field::Latch(3)),
        }
    }

    // The latch with a register stored; the commits, 3 and 5, leave it, and so does a byte that names no register.
    // A byte and not a `Register`: `Latch::with` and `store` promise what they leave for every byte, and may not ask more.
    pub fn with(self, register: u8, value: u8) -> Latch
        ensures { result ≡ latch_with self register value }
    {
        match Register::try_from(register) {
            Ok(Register::Outgoing) => Latch {
                outgoing: value,
                ..self
            },
            Ok(Register::Delay) => Latch {
                delay: value,
                ..self
            },
            Ok(Register::Routes) => Latch {
                routes: value,
                ..self
            },
            Ok(Register::Ports) => Latch {
                horizons: value,
                ..self
            },
            _ => self,
        }
    }
}

// Stores a register through a reference.
pub fn store(latch: &mut Latch, register: u8, value: u8)
    ensures { latch.new ≡ latch_with latch.old register value }
{
    *latch = latch.with(register, value);
}

// Register 3: the latch becomes the entry of a connection.
fn commit_entry(state: &mut [u8], connection: ConnectionId)
    ensures { state.new ≡ commit_entry board8 connection.0 state.old }
{
    let latch = Latch::read(state);
    layout::put(state, Field::Outgoing(connection), latch.outgoing);
    layout::put(state, Field::Delay(connection), latch.delay);
    layout::put(state, Field::Routes(connection), latch.routes);
}

// Register 5: a horizon for each port in the latch's mask.
#[tactic(auto, unfolding(rules::specs::Questions::commit_horizon))]
fn commit_horizon(state: &mut [u8], horizon: u8)
    ensures { state.new ≡ commit_horizon board8 5 (board8.get state.old (LatchField, 3)) horizon state.old }
{
    let mask = Latch::read(state).horizons;
    for index in 0..Port::COUNT {
        if layout::has_port(mask, Port { index }) {
            layout::put(state, Field::Horizon(index), horizon);
        }
    }
}

// An accepted control write.
#[tactic(auto, unfolding(rules::specs::Questions::written))]
pub fn write_register(state: &mut [u8], register: Register, value: u8)
    ensures { state.new ≡ written board8 (register_number register) value state.old }
{
    let mut latch = Latch::read(state);
    store(&mut latch, register.into(), value);
    match register {
        Register::Outgoing => layout::put(state, Field::Latch(0), latch.outgoing),
        Register::Delay => layout::put(state, Field::Latch(1), latch.delay),
        Register::Routes => layout::put(state, Field::Latch(2), latch.routes),
        Register::Connection => commit_entry(state, ConnectionId(value)),
        Register::Ports => layout::put(state, Field::Latch(3), latch.horizons),
        Register::Horizon => commit_horizon(state, value),
    }
}

// Does the value fit the register of this number? A byte that names no register takes any.
#[tactic(auto, unfolding(rules::specs::Areas::fits))]
pub fn value_fits(register: u8, value: u8) -> bool
    ensures { result ≡ fits 1 register value }
{
    Register::try_from(register).map_or(true, |r| r.fits(value))
}
