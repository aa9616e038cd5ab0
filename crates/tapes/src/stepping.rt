// A tape record after record and block after block, each with its text.
ghost use Rattle.std.specs.Prelude.{◌≡◌, ◌++◌, ◌+◌, ◌*◌, ◌^◌, ◌≤◌, ◌<◌, length};
ghost use Rattle.arrayvec.specs.ArrayVec.{array_vec_len};
ghost use Rattle.records.specs.Records.{records_in};
ghost use Rattle.events.specs.Tape.{take_record};
ghost use Rattle.events.specs.Values.{tape_in, tape_of};
ghost use Rattle.pages.specs.Values.{PutPaged};
ghost use Rattle.tapes.specs.Printed.{print_event};
ghost use Rattle.tapes.specs.Blocks as Blocks;
ghost use Rattle.tapes.specs.Values.{place_in, place_of};

use crate::printing;
use crate::printing::Style;
use arrayvec::ArrayVec;
use events::{Pending, RouterTape, Tape};
use layout::{Packets, Router};
use pages::Page;

// One record, and its text. The router's areas are lent, of any lengths.
pub fn step_areas<const N: usize>(
    state: &mut [u8],
    memory: &mut [u8],
    arrivals: &mut Packets,
    pending: &mut Pending,
    number: u64,
    bytes: &[u8],
    style: Style,
    page: &mut Page,
    lines: &mut ArrayVec<u8, N>,
)
    requires { array_vec_len lines.old + 161 ≤ N }
    ensures tape_after { tape_in state.new memory.new arrivals.new pending.new ≡ (take_record (tape_in state.old memory.old arrivals.old pending.old) number bytes.now).tape }
    ensures put_paged { PutPaged (print_event style page.old (take_record (tape_in state.old memory.old arrivals.old pending.old) number bytes.now).event) page.new lines.old.items lines.new.items }
    ensures len { array_vec_len lines.new ≤ array_vec_len lines.old + 161 }
{
    let mut outgoing = [0u8; Router::OUTGOING];
    let mut answers = [0u8; Router::ANSWERS];
    let event = events::take_record(
        state,
        memory,
        arrivals,
        pending,
        number,
        bytes,
        &mut outgoing,
        &mut answers,
    );
    printing::put_event(
        lines,
        style,
        page,
        number,
        pending.records,
        event,
        &outgoing,
        &answers,
    );
}

// One record, and its text.
pub fn step<const S: usize, const M: usize, const N: usize>(
    tape: &mut Tape<S, M>,
    number: u64,
    bytes: &[u8],
    style: Style,
    page: &mut Page,
    lines: &mut ArrayVec<u8, N>,
)
    requires { array_vec_len lines.old + 161 ≤ N }
    ensures tape_after { tape_of tape.new ≡ (take_record (tape_of tape.old) number bytes.now).tape }
    ensures put_paged { PutPaged (print_event style page.old (take_record (tape_of tape.old) number bytes.now).event) page.new lines.old.items lines.new.items }
    ensures len { array_vec_len lines.new ≤ array_vec_len lines.old + 161 }
{
    step_areas(
        &mut tape.state,
        &mut tape.memory,
        &mut tape.arrivals,
        &mut tape.pending,
        number,
        bytes,
        style,
        page,
        lines,
    );
}

// The records of a block, a rest of fewer than 24 bytes among them, and their text. The router's areas are lent, of any lengths, and what else a place has.
pub fn run<const N: usize>(
    state: &mut [u8],
    memory: &mut [u8],
    arrivals: &mut Packets,
    pending: &mut Pending,
    number: &mut u64,
    page: &mut Page,
    block: &[u8],
    style: Style,
    lines: &mut ArrayVec<u8, N>,
)
    requires room { array_vec_len lines.old + 161 * records_in block.now ≤ N }
    requires number_fits { number.old + length block.now < 2 ^ 60 }
    ensures place_after { place_in state.new memory.new arrivals.new pending.new number.new page.new ≡ (Blocks.turned style (place_in state.old memory.old arrivals.old pending.old number.old page.old) block.now).place }
    ensures appended { lines.new.items ≡ lines.old.items ++ (Blocks.turned style (place_in state.old memory.old arrivals.old pending.old number.old page.old) block.now).text }
    ensures len { array_vec_len lines.new ≤ array_vec_len lines.old + 161 * records_in block.now }
{
    for record in block.chunks(records::RECORD) {
        *number += 1;
        step_areas(
            state, memory, arrivals, pending, *number, record, style, page, lines,
        );
    }
}

// Between blocks: the tape, how many records were read, and the page at hand.
#[derive(Clone, Copy)]
pub struct Place<const S: usize, const M: usize> {
    pub tape: Tape<S, M>,
    pub number: u64,
    pub page: Page,
}

// Of a tape whose areas have the router's own lengths.
pub type RouterPlace = Place<{ Router::STATE }, { Router::MEMORY }>;

impl RouterPlace {
    // A tape's beginning: a fresh router at clock 0, no arrival that waits, no record read, and page 1 not begun.
    pub fn begin() -> RouterPlace
        ensures { place_of result ≡ Blocks.begin }
    {
        Place {
            tape: RouterTape::begin(),
            number: 0,
            page: Page::first(),
        }
    }
}

impl<const S: usize, const M: usize> Place<S, M> {
    // The records of a block, a rest of fewer than 24 bytes among them, and their text.
    pub fn run<const N: usize>(&mut self, block: &[u8], style: Style, lines: &mut ArrayVec<u8, N>)
        requires room { array_vec_len lines.old + 161 * records_in block.now ≤ N }
        requires number_fits { self.old.number + length block.now < 2 ^ 60 }
        ensures place_after { place_of self.new ≡ (Blocks.turned style (place_of self.old) block.now).place }
        ensures appended { lines.new.items ≡ lines.old.items ++ (Blocks.turned style (place_of self.old) block.now).text }
        ensures len { array_vec_len lines.new ≤ array_vec_len lines.old + 161 * records_in block.now }
    {
        run(
            &mut self.tape.state,
            &mut self.tape.memory,
            &mut self.tape.arrivals,
            &mut self.tape.pending,
            &mut self.number,
            &mut self.page,
            block,
            style,
            lines,
        );
    }
}
