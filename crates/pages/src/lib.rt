// Pages of a tape, appended to what is printed so far as the ticks come.
#![tactic(auto)]

ghost use Rattle.std.specs.Prelude.{◌≡◌, List, [], ◌∷◌, ◌++◌, ℕ, ◌+◌, ◌*◌, ◌≤◌, ◌<◌, replicate};
ghost use Rattle.arrayvec.specs.ArrayVec.{array_vec_len};
ghost use Rattle.events.specs.Values.{event_of};
ghost use Rattle.pages.specs.Pages.{spaces, number_line, tick_row, empty_row, total_line, ended};
ghost use Rattle.pages.specs.Printing as Printing;
ghost use Rattle.pages.specs.Values.{PutPaged};

use arrayvec::ArrayVec;
use events::Event;
use layout::ClockReading;
use std::marker::Model;

pub mod lent;

// A line has 72 characters, and a page 62 ticks.
const LINE: usize = 72;

const TICKS: usize = 62;

// Spaces, and the line feed that ends their line.
fn end_line<const N: usize>(lines: &mut ArrayVec<u8, N>, count: usize)
    requires { array_vec_len lines.old + count + 1 ≤ N }
    ensures appended { lines.new.items ≡ lines.old.items ++ (spaces count ++ (10 ∷ [])) }
    ensures len { array_vec_len lines.new ≡ array_vec_len lines.old + count + 1 }
{
    text::put_repeated(lines, count, b' ');
    lines.push(b'\n');
}

// A page's first line.
#[tactic(auto, using(crate::proofs::Lines::line_parts))]
fn put_number<const N: usize>(lines: &mut ArrayVec<u8, N>, number: u64)
    requires { array_vec_len lines.old + 73 ≤ N }
    ensures appended { lines.new.items ≡ lines.old.items ++ ended (number_line number ∷ []) }
    ensures len { array_vec_len lines.new ≡ array_vec_len lines.old + 73 }
{
    let width = text::digits(number);
    text::put_repeated(lines, LINE - width, b' ');
    text::put_decimal(lines, width, number);
    lines.push(b'\n');
}

// An accepted tick's line, from the clock before it, the outgoing and the answer bytes.
#[tactic(auto, using(crate::proofs::Lines::line_parts))]
fn put_row<const N: usize>(
    lines: &mut ArrayVec<u8, N>,
    clock: ClockReading,
    outgoing: &[u8],
    answers: &[u8],
)
    requires { array_vec_len lines.old + 73 ≤ N }
    ensures appended { lines.new.items ≡ lines.old.items ++ ended (tick_row (record { clock = clock.0; outgoing = outgoing.now; answers = answers.now }) ∷ []) }
    ensures len { array_vec_len lines.new ≡ array_vec_len lines.old + 73 }
{
    text::put_tick_text(lines, clock, outgoing, answers);
    end_line(lines, LINE - 30);
}

// Lines without a tick.
#[tactic(auto, using(crate::proofs::Lines::line_parts), unfolding(crate::specs::Pages::ended))]
fn put_empty_rows<const N: usize>(lines: &mut ArrayVec<u8, N>, count: usize)
    requires { array_vec_len lines.old + 73 * count ≤ N }
    ensures appended { lines.new.items ≡ lines.old.items ++ ended (replicate count empty_row) }
    ensures len { array_vec_len lines.new ≡ array_vec_len lines.old + 73 * count }
{
    for _ in 0..count {
        end_line(lines, LINE);
    }
}

// A page's last line.
#[tactic(auto, using(crate::proofs::Lines::line_parts))]
fn put_total<const N: usize>(lines: &mut ArrayVec<u8, N>, total: u64)
    requires { array_vec_len lines.old + 73 ≤ N }
    ensures appended { lines.new.items ≡ lines.old.items ++ ended (total_line total ∷ []) }
    ensures len { array_vec_len lines.new ≡ array_vec_len lines.old + 73 }
{
    text::put_decimal(lines, 6, total);
    end_line(lines, LINE - 6);
}

// The rest of a page that is begun, whatever its number and what its ticks withdrew.
#[tactic(auto, using(crate::proofs::Lines::line_parts), unfolding(crate::specs::Printing::ending))]
pub fn put_end<const N: usize>(lines: &mut ArrayVec<u8, N>, ticks: usize, total: u64)
    requires ticks { ticks < 62 }
    requires room { array_vec_len lines.old + 4526 ≤ N }
    ensures appended { (number : ℕ) → lines.new.items ≡ lines.old.items ++ Printing.ending (record { number = number; ticks = ticks; total = total }) }
    ensures len { array_vec_len lines.new ≤ array_vec_len lines.old + 4526 }
{
    if 0 < ticks {
        put_empty_rows(lines, TICKS - ticks);
        put_total(lines, total);
    }
}

// The page at hand: its number, how many ticks stand on it, and how many packets these withdrew. It is begun by its first tick, and is never full: with its last tick the next page is at hand.
#[derive(Clone, Copy)]
pub struct Page {
    pub number: u64,
    pub ticks: usize,
    pub total: u64,
}

impl Model for Page {
    ghost use Rattle.pages.specs.Printing.{Page as Shown};
    ghost use Rattle.pages.specs.Values.{Unfilled};

    ghost Value = { Shown };

    ghost view = { λ p. record { number = p.number; ticks = p.ticks; total = p.total } };

    ghost invariant = { λ p. Unfilled (record { number = p.number; ticks = p.ticks; total = p.total }) };

    ghost inverse = { λ p. record { number = p.number; ticks = p.ticks; total = p.total } };
}

impl Page {
    // A page not yet begun.
    fn unbegun(number: u64) -> Page
        requires { number < 10000 }
        ensures { result ≡ Printing.unbegun number }
    {
        Page {
            number,
            ticks: 0,
            total: 0,
        }
    }

    // Page 1, not yet begun.
    pub fn first() -> Page
        ensures { result ≡ Printing.unbegun 1 }
    {
        Page::unbegun(1)
    }

    // The first line of a page that a tick begins.
    #[tactic(auto, unfolding(crate::specs::Printing::opening))]
    fn put_opening<const N: usize>(&self, lines: &mut ArrayVec<u8, N>)
        requires { array_vec_len lines.old + 73 ≤ N }
        ensures appended { lines.new.items ≡ lines.old.items ++ Printing.opening self.now }
        ensures len { (array_vec_len lines.new ≤ array_vec_len lines.old + 73) × (0 < self.now.ticks → array_vec_len lines.new ≡ array_vec_len lines.old) }
    {
        if self.ticks == 0 {
            put_number(lines, self.number);
        }
    }

    // An accepted tick, at most 146 characters: its line, after the page's first line if it begins one, and before the last line of a page that is full.
    #[tactic(auto, unfolding(crate::specs::Printing::with_tick, crate::specs::Printing::closed))]
    fn put_tick<const N: usize>(
        &mut self,
        lines: &mut ArrayVec<u8, N>,
        clock: ClockReading,
        outgoing: &[u8],
        answers: &[u8],
    )
        requires { array_vec_len lines.old + 146 ≤ N }
        ensures put_paged { PutPaged (Printing.with_tick self.old (record { clock = clock.0; outgoing = outgoing.now; answers = answers.now })) self.new lines.old.items lines.new.items }
        ensures len { array_vec_len lines.new ≤ array_vec_len lines.old + 146 }
    {
        self.put_opening(lines);
        put_row(lines, clock, outgoing, answers);
        let ticks = self.ticks + 1;
        let total = self.total + text::withdrawn_sum(answers);
        *self = if ticks == TICKS {
            put_total(lines, total);
            Page::unbegun((self.number + 1) % 10000)
        } else {
            Page {
                number: self.number,
                ticks,
                total,
            }
        };
    }

    // What a record comes to, at most 146 characters.
    #[tactic(auto, unfolding(crate::specs::Printing::with_event))]
    pub fn put_event<const N: usize>(
        &mut self,
        lines: &mut ArrayVec<u8, N>,
        event: Event,
        outgoing: &[u8],
        answers: &[u8],
    )
        requires { array_vec_len lines.old + 146 ≤ N }
        ensures put_paged { (number : ℕ) (records : List ℕ) → PutPaged (Printing.with_event self.old (event_of number records event outgoing.now answers.now)) self.new lines.old.items lines.new.items }
        ensures len { array_vec_len lines.new ≤ array_vec_len lines.old + 146 }
    {
        if let Ok(Some(clock)) = event {
            self.put_tick(lines, clock, outgoing, answers);
        }
    }

    // The tape's end: the rest of a page that is begun, at most 62 lines.
    pub fn put_end<const N: usize>(&self, lines: &mut ArrayVec<u8, N>)
        requires { array_vec_len lines.old + 4526 ≤ N }
        ensures appended { lines.new.items ≡ lines.old.items ++ Printing.ending self.now }
        ensures len { array_vec_len lines.new ≤ array_vec_len lines.old + 4526 }
    {
        put_end(lines, self.ticks, self.total);
    }
}
