// The same text for a lent area of any length: each function prints from a place on, leaves all other places as they were, and gives the place after its text.
ghost use Rattle.std.specs.Prelude.{ℕ, List, ◌+◌, ◌≤◌, ◌<◌, length};
ghost use Rattle.text.specs.Put.{Put};
ghost use Rattle.pages.specs.Printing as Printing;
ghost use Rattle.pages.specs.Values.{Unfilled, PutPagedAt, byte_event_of};

use crate::Page;
use arrayvec::ArrayVec;
use layout::ClockReading;

// What a record comes to, at most 146 characters. A refusal is any byte, of which `events::Refused` has twelve.
#[tactic(auto, unfolding(crate::specs::Printing::with_event))]
pub fn put_event(
    lines: &mut [u8],
    at: usize,
    page: &mut Page,
    event: Result<Option<ClockReading>, u8>,
    outgoing: &[u8],
    answers: &[u8],
) -> usize
    requires { at + 146 ≤ length lines.old }
    ensures put_paged { (number : ℕ) (records : List ℕ) → PutPagedAt (Printing.with_event page.old (byte_event_of number records event outgoing.now answers.now)) page.new at lines.old lines.new result }
    ensures unfilled { Unfilled page.new × (result ≤ at + 146) }
{
    // Where a field is named, the check learns that the page is not full.
    let _ = &page.ticks;
    let Ok(Some(clock)) = event else {
        return at;
    };
    let mut text = ArrayVec::<u8, 146>::new();
    page.put_tick(&mut text, clock, outgoing, answers);
    let _ = &page.ticks;
    layout::copy_in(&text, lines, at);
    at + text.len()
}

// The tape's end: the rest of a page that is begun, at most 62 lines, whatever its number and what its ticks withdrew.
pub fn put_end(lines: &mut [u8], at: usize, ticks: usize, total: u64) -> usize
    requires ticks { ticks < 62 }
    requires room { at + 4526 ≤ length lines.old }
    ensures put { (number : ℕ) → Put (Printing.ending (record { number = number; ticks = ticks; total = total })) at lines.old lines.new result }
    ensures bound { result ≤ at + 4526 }
{
    if ticks == 0 {
        return at;
    }
    let mut rest = ArrayVec::<u8, 4526>::new();
    crate::put_end(&mut rest, ticks, total);
    layout::copy_in(&rest, lines, at);
    at + rest.len()
}
