// What goes out with a record, lines or part of a page, appended to what is printed so far.
ghost use Rattle.std.specs.Prelude.{◌≡◌, ◌++◌, ◌+◌, ◌≤◌};
ghost use Rattle.arrayvec.specs.ArrayVec.{array_vec_len};
ghost use Rattle.rules.specs.Areas.{per_port};
ghost use Rattle.events.specs.Values.{event_of};
ghost use Rattle.pages.specs.Values.{PutPaged};
ghost use Rattle.tapes.specs.Printed.{refused_arrival, ticked_lines, event_lines, print_event, print_end};

use arrayvec::ArrayVec;
use events::Event;
use layout::{ClockReading, Port, Router};
use pages::Page;

// What is printed of a tape: its lines, or its pages. An enum, since `printed` and `ReadsPrintTheTape` (specs) are over a style; the page at hand goes beside it, since `print_event` and the place between blocks have one in either style.
#[derive(Clone, Copy)]
pub enum Style {
    Lines,
    Pages,
}

// The least number of a refusal that an arrival meets in a tick. The C interface has these as bytes of the answers.
const REFUSED: u8 = 6;

// The line of a port's arrival, if a tick's answers refuse it.
#[tactic(auto, unfolding(crate::specs::Printed::refused_arrival))]
fn put_refused_arrival<const N: usize>(
    lines: &mut ArrayVec<u8, N>,
    port: Port,
    records: [u64; Router::PORTS],
    answers: &[u8],
)
    requires { array_vec_len lines.old + 26 ≤ N }
    ensures appended { lines.new.items ≡ lines.old.items ++ refused_arrival records answers.now port.index }
    ensures len { array_vec_len lines.new ≤ array_vec_len lines.old + 26 }
{
    let place = usize::from(port.index);
    let met = layout::byte(answers, Router::PORTS + place);
    if REFUSED <= met {
        text::put_refused(lines, records[place], met);
    }
}

#[tactic(auto, unfolding(rules::specs::Areas::ports_below))]
fn put_refused_arrivals<const N: usize>(
    lines: &mut ArrayVec<u8, N>,
    records: [u64; Router::PORTS],
    answers: &[u8],
)
    requires { array_vec_len lines.old + 130 ≤ N }
    ensures appended { lines.new.items ≡ lines.old.items ++ per_port (refused_arrival records answers.now) }
    ensures len { array_vec_len lines.new ≤ array_vec_len lines.old + 130 }
{
    for index in 0..Port::COUNT {
        put_refused_arrival(lines, Port { index }, records, answers);
    }
}

// An accepted tick: refused arrivals, then its own line.
#[tactic(auto, unfolding(crate::specs::Printed::ticked_lines))]
fn put_ticked<const N: usize>(
    lines: &mut ArrayVec<u8, N>,
    records: [u64; Router::PORTS],
    clock: ClockReading,
    outgoing: &[u8],
    answers: &[u8],
)
    requires { array_vec_len lines.old + 161 ≤ N }
    ensures appended { lines.new.items ≡ lines.old.items ++ ticked_lines records clock.0 outgoing.now answers.now }
    ensures len { array_vec_len lines.new ≤ array_vec_len lines.old + 161 }
{
    put_refused_arrivals(lines, records, answers);
    text::put_tick(lines, clock, outgoing, answers);
}

// The lines of what a record comes to, at most 161 characters.
#[tactic(auto, unfolding(crate::specs::Printed::event_lines))]
fn put_lines<const N: usize>(
    lines: &mut ArrayVec<u8, N>,
    number: u64,
    records: [u64; Router::PORTS],
    event: Event,
    outgoing: &[u8],
    answers: &[u8],
)
    requires { array_vec_len lines.old + 161 ≤ N }
    ensures appended { lines.new.items ≡ lines.old.items ++ event_lines (event_of number records event outgoing.now answers.now) }
    ensures len { array_vec_len lines.new ≤ array_vec_len lines.old + 161 }
{
    match event {
        Ok(None) => {}
        Ok(Some(clock)) => put_ticked(lines, records, clock, outgoing, answers),
        Err(refused) => text::put_refused(lines, number, refused.into()),
    }
}

// What goes out with a record, at most 161 characters.
#[tactic(auto, unfolding(crate::specs::Printed::print_event))]
pub fn put_event<const N: usize>(
    lines: &mut ArrayVec<u8, N>,
    style: Style,
    page: &mut Page,
    number: u64,
    records: [u64; Router::PORTS],
    event: Event,
    outgoing: &[u8],
    answers: &[u8],
)
    requires { array_vec_len lines.old + 161 ≤ N }
    ensures put_paged { PutPaged (print_event style page.old (event_of number records event outgoing.now answers.now)) page.new lines.old.items lines.new.items }
    ensures len { array_vec_len lines.new ≤ array_vec_len lines.old + 161 }
{
    match style {
        Style::Lines => put_lines(lines, number, records, event, outgoing, answers),
        Style::Pages => page.put_event(lines, event, outgoing, answers),
    }
}

// What goes out at the tape's end, at most 62 lines.
#[tactic(auto, unfolding(crate::specs::Printed::print_end))]
pub fn put_end<const N: usize>(lines: &mut ArrayVec<u8, N>, style: Style, page: &Page)
    requires { array_vec_len lines.old + 4526 ≤ N }
    ensures appended { lines.new.items ≡ lines.old.items ++ print_end style page.now }
    ensures len { array_vec_len lines.new ≤ array_vec_len lines.old + 4526 }
{
    match style {
        Style::Lines => {}
        Style::Pages => page.put_end(lines),
    }
}
