// The six steps of a tick, and its answers.
#![tactic(auto)]

ghost use Rattle.std.specs.Prelude.{◌≡◌, ◌/◌, ◌%◌, length, [], ◌∷◌};
ghost use Rattle.std.proofs.lemmas.List.Edits.{sets};
ghost use Rattle.rules.specs.Areas.{byte, per_port, answers_area, Outcome, Store};
ghost use Rattle.rules.specs.Board.{board8};
ghost use Rattle.rules.specs.Tick.{ticked};
ghost use Rattle.passes.specs.Room.{Room};

use layout::{Answers, Memory, Packets, Router, State};

// Where the answers of the arrivals start, and the counts of packets withdrawn.
const ARRIVALS: usize = Router::PORTS;

const WITHDRAWN: usize = 2 * Router::PORTS;

// Lays out how many packets were withdrawn per port, in two bytes, high first.
fn put_counts(part: &mut [u8], counts: [u16; Router::PORTS])
    requires { length part.old ≡ 10 }
    ensures { part.new ≡ per_port (λ p. byte counts p / 256 ∷ byte counts p % 256 ∷ []) }
{
    for port in 0..Router::PORTS {
        layout::put_pair(part, 2 * port, counts[port]);
    }
}

// Lays out what the arrivals met, byte by byte: a copy of these five is a call of memcpy on a Cortex-M0+, for which libservice.a has no other use there.
fn put_met(answers: &mut Answers, met: [u8; Router::PORTS])
    ensures { answers.new ≡ sets answers.old 5 met }
{
    let [first, second, third, fourth, fifth] = met;
    answers[ARRIVALS] = first;
    answers[ARRIVALS + 1] = second;
    answers[ARRIVALS + 2] = third;
    answers[ARRIVALS + 3] = fourth;
    answers[ARRIVALS + 4] = fifth;
}

// Lays out the answers: per port its code, what its arrival met, and how many were withdrawn.
pub fn put_answers(
    answers: &mut Answers,
    codes: [u8; Router::PORTS],
    met: [u8; Router::PORTS],
    counts: [u16; Router::PORTS],
)
    ensures { answers.new ≡ answers_area (byte codes) (byte met) (byte counts) }
{
    layout::copy_in(&codes, answers, 0);
    put_met(answers, met);
    put_counts(&mut answers[WITHDRAWN..], counts);
}

// The six steps, of a sound state.
pub fn work(
    state: &mut State,
    memory: &mut Memory,
    arrivals: &Packets,
    outgoing: &mut Packets,
    answers: &mut Answers,
    arriving: u8,
    waiting: u8,
)
    requires { Room board8 state.old }
    ensures { ◌≡◌ {A = Outcome Store}
        (record { reply = record { number = 0; outgoing = outgoing.new; answers = answers.new }; after = record { state = state.new; memory = memory.new } })
        (ticked board8 (record { state = state.old; memory = memory.old }) arriving waiting arrivals.now) }
{
    let met = arrive::arrive(state, memory, arrivals, arriving);
    let served = serve::serve_and_settle(state, memory, outgoing, waiting);
    put_answers(answers, served.codes, met, served.counts);
}
