// Steps 2 to 6 of a tick: each port's choice, the packets sent, withdrawal, the slots given back, the clock.
#![tactic(auto)]

mod send;

ghost use Rattle.std.specs.Prelude.{◌≡◌, [], ◌∷◌, ℕ, ◌<◌};
ghost use Rattle.rules.specs.Areas.{per_port, grant_code};
ghost use Rattle.rules.specs.Board.{board8};
ghost use Rattle.rules.specs.Tick.{grant, grant_bytes, served, withdrawals, withdrawn, returned, advanced};
ghost use Rattle.passes.specs.Room.{Room};
ghost use Rattle.passes.specs.Empty.{EmptyFrom};
ghost use Rattle.passes.specs.Sends.{Winner, sent_by};
ghost use Rattle.choose.specs.Grants.{grant_at};

use choose::Grant;
use layout::{ClockReading, Field, Memory, Packets, Router, State};

// What a tick answers of steps 2 to 4, port by port: who had it, and how many packets were withdrawn.
#[derive(Clone, Copy)]
pub struct Served {
    pub codes: [u8; Router::PORTS],
    pub counts: [u16; Router::PORTS],
}

// Step 6.
fn advance(state: &mut State)
    ensures { state.new ≡ advanced board8 state.old }
{
    let t = ClockReading(layout::get(state, Field::Clock));
    layout::put(state, Field::Clock, clock::later(t, 1).0);
}

// Steps 3 to 6, where the ports have these grants, whoever chose them; the slots from `end` on are empty.
pub fn carry_out(
    state: &mut State,
    memory: &Memory,
    outgoing: &mut Packets,
    grants: [Grant; Router::PORTS],
    end: usize,
) -> Served
    requires slots { Room board8 state.old × EmptyFrom board8 state.old end }
    requires grants { (p : ℕ) → p < 5 → Winner board8 state.old p (grant_at grants p) }
    ensures ports { result.codes ≡ per_port (λ p. grant_code (grant_at grants p) ∷ []) }
    ensures packets { outgoing.new ≡ per_port (λ p. grant_bytes memory.now (grant_at grants p)) }
    ensures withdrawn { result.counts ≡ per_port (λ p. withdrawals board8 (sent_by board8 (grant_at grants) 5 state.old) p ∷ []) }
    ensures after { state.new ≡ advanced board8 (returned board8 256 state.old (withdrawn board8 256 (sent_by board8 (grant_at grants) 5 state.old))) }
{
    let mut sent = [0u8; Router::SLOTS];
    let codes = send::serve(memory, outgoing, &mut sent, grants);
    let counts = settle::settle(state, &sent, end);
    advance(state);
    Served { codes, counts }
}

// Steps 2 to 6.
pub fn serve_and_settle(
    state: &mut State,
    memory: &Memory,
    outgoing: &mut Packets,
    waiting: u8,
) -> Served
    requires { Room board8 state.old }
    ensures ports { result.codes ≡ per_port (λ p. grant_code (grant board8 (served board8 p waiting state.old) waiting p) ∷ []) }
    ensures packets { outgoing.new ≡ per_port (λ p. grant_bytes memory.now (grant board8 (served board8 p waiting state.old) waiting p)) }
    ensures withdrawn { result.counts ≡ per_port (λ p. withdrawals board8 (served board8 5 waiting state.old) p ∷ []) }
    ensures after { state.new ≡ advanced board8 (returned board8 256 state.old (withdrawn board8 256 (served board8 5 waiting state.old))) }
{
    let end = choose::end(state);
    let grants = choose::grants(state, end, waiting);
    carry_out(state, memory, outgoing, grants, end)
}
