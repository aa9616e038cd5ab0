// The same for lent areas of any lengths: what is printed goes into a slice from a place on, and all other places stay as they were. Each function gives the place after its text.
ghost use Rattle.std.specs.Prelude.{◌≡◌, ◌+◌, ◌*◌, ◌^◌, ◌≤◌, ◌<◌, length};
ghost use Rattle.arrayvec.specs.ArrayVec.{array_vec_len};
ghost use Rattle.records.specs.Records.{records_in};
ghost use Rattle.events.specs.Tape.{take_record};
ghost use Rattle.events.specs.Values.{tape_in};
ghost use Rattle.text.specs.Put.{Put};
ghost use Rattle.pages.specs.Values.{PutPaged, PutPagedAt, byte_event_of};
ghost use Rattle.tapes.specs.Printed.{print_event, print_end};
ghost use Rattle.tapes.specs.Blocks as Blocks;
ghost use Rattle.tapes.specs.Values.{place_in};

use crate::printing::Style;
use crate::{printing, stepping};
use arrayvec::ArrayVec;
use events::Pending;
use layout::{ClockReading, Packets, Router};
use pages::Page;

// What goes out with a record has at most so many characters.
const TEXT: usize = 161;

fn put(text: &[u8], lines: &mut [u8], at: usize) -> usize
    requires { at + length text.now ≤ length lines.old }
    ensures { Put text.now at lines.old lines.new result }
{
    layout::copy_in(text, lines, at);
    at + text.len()
}

// What goes out with a record. Its refusal may be any byte.
#[tactic(auto, unfolding(crate::specs::Printed::print_event, crate::specs::Printed::event_lines, pages::specs::Printing::with_event))]
fn append_event(
    text: &mut ArrayVec<u8, TEXT>,
    style: Style,
    page: &mut Page,
    number: u64,
    records: [u64; Router::PORTS],
    event: Result<Option<ClockReading>, u8>,
    outgoing: &[u8],
    answers: &[u8],
)
    requires { array_vec_len text.old ≡ 0 }
    ensures { PutPaged (print_event style page.old (byte_event_of number records event outgoing.now answers.now)) page.new text.old.items text.new.items }
{
    match event {
        Ok(ticked) => printing::put_event(
            text,
            style,
            page,
            number,
            records,
            Ok(ticked),
            outgoing,
            answers,
        ),
        Err(refusal) => match style {
            Style::Lines => text::put_refused(text, number, refusal),
            Style::Pages => {}
        },
    }
}

// What goes out with a record, at most 161 characters. Its refusal may be any byte, of which `events::Refused` has twelve.
pub fn put_event(
    lines: &mut [u8],
    at: usize,
    style: Style,
    page: &mut Page,
    number: u64,
    records: [u64; Router::PORTS],
    event: Result<Option<ClockReading>, u8>,
    outgoing: &[u8],
    answers: &[u8],
) -> usize
    requires { at + 161 ≤ length lines.old }
    ensures put_paged { PutPagedAt (print_event style page.old (byte_event_of number records event outgoing.now answers.now)) page.new at lines.old lines.new result }
    ensures upper_bound { result ≤ at + 161 }
{
    let mut text = ArrayVec::<u8, TEXT>::new();
    append_event(
        &mut text, style, page, number, records, event, outgoing, answers,
    );
    put(&text, lines, at)
}

// What goes out at the tape's end, at most 62 lines.
#[tactic(auto, unfolding(crate::specs::Printed::print_end))]
pub fn put_end(lines: &mut [u8], at: usize, style: Style, page: &Page) -> usize
    requires { at + 4526 ≤ length lines.old }
    ensures put { Put (print_end style page.now) at lines.old lines.new result }
    ensures upper_bound { result ≤ at + 4526 }
{
    match style {
        Style::Lines => at,
        Style::Pages => pages::lent::put_end(lines, at, page.ticks, page.total),
    }
}

// One record, and its text.
pub fn step(
    state: &mut [u8],
    memory: &mut [u8],
    arrivals: &mut Packets,
    pending: &mut Pending,
    number: u64,
    bytes: &[u8],
    style: Style,
    page: &mut Page,
    lines: &mut [u8],
    at: usize,
) -> usize
    requires { at + 161 ≤ length lines.old }
    ensures tape_after { tape_in state.new memory.new arrivals.new pending.new ≡ (take_record (tape_in state.old memory.old arrivals.old pending.old) number bytes.now).tape }
    ensures put_paged { PutPagedAt (print_event style page.old (take_record (tape_in state.old memory.old arrivals.old pending.old) number bytes.now).event) page.new at lines.old lines.new result }
    ensures upper_bound { result ≤ at + 161 }
{
    let mut text = ArrayVec::<u8, TEXT>::new();
    stepping::step_areas(
        state, memory, arrivals, pending, number, bytes, style, page, &mut text,
    );
    put(&text, lines, at)
}

// The records of a block, a rest of fewer than 24 bytes among them, and their text.
pub fn run(
    state: &mut [u8],
    memory: &mut [u8],
    arrivals: &mut Packets,
    pending: &mut Pending,
    number: &mut u64,
    page: &mut Page,
    block: &[u8],
    style: Style,
    lines: &mut [u8],
    at: usize,
) -> usize
    requires room { at + 161 * records_in block.now ≤ length lines.old }
    requires number_fits { number.old + length block.now < 2 ^ 60 }
    ensures place_after { place_in state.new memory.new arrivals.new pending.new number.new page.new ≡ (Blocks.turned style (place_in state.old memory.old arrivals.old pending.old number.old page.old) block.now).place }
    ensures put { Put (Blocks.turned style (place_in state.old memory.old arrivals.old pending.old number.old page.old) block.now).text at lines.old lines.new result }
    ensures upper_bound { result ≤ at + 161 * records_in block.now }
{
    let mut place = at;
    for record in block.chunks(records::RECORD) {
        *number += 1;
        place = step(
            state, memory, arrivals, pending, *number, record, style, page, lines, place,
        );
    }
    place
}
