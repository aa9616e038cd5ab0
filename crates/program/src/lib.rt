// What the programs `tape` and `page` share: records from standard input, and what is printed of them to standard output as they come. What can't be read or written is said on standard error.
#![tactic(auto)]

ghost use Rattle.std.specs.Prelude.{◌+◌, ◌*◌, ◌≤◌, ◌<◌, ◌^◌, ◌≡◌, ◌++◌, Bool, true, length, take, is_none, unwrap_or, IfOk, IfErr, OnOk, OnErr, IsErrOf, IsNone, Some};
ghost use Rattle.std.specs.Io.KnownBytes.{Consumes, Appends, Keeps, IsAtEnd};
ghost use Rattle.records.specs.Records.{record_length};
ghost use Rattle.arrayvec.specs.ArrayVec.{array_vec_len};
ghost use Rattle.tapes.specs.Blocks as Blocks;
ghost use Rattle.tapes.specs.Values.{place_of};
ghost use Rattle.program.specs.Failures.{text_of};
ghost use Rattle.program.specs.Turns.{PartOfRecord, brought, between_of, BlockPerRead, HasReached, PrintsTape};

use arrayvec::{ArrayString, ArrayVec};
use records::RECORD;
use std::error::Error;
use std::fmt;
use std::io::{Read, Write};
use std::rt::{Stderr, Stdin, Stdout};
use tapes::printing::{self, Style};
use tapes::stepping::RouterPlace;

// A block has 1,024 records. There is room for 161 characters for each, as `Place::run` asks, and for the end of a page.
const RECORDS: usize = 1024;

const BLOCK: usize = RECORDS * RECORD;

const LINES: usize = RECORDS * 161 + 4526;

// Of the bytes of a block fewer than a record has are held for the next one.
const HELD: usize = RECORD - 1;

// A tape is read to its end, or by 2 ^ 48 reads, which take years.
const READS: u64 = 281474976710656;

// What a program reads, what it writes, and where it says what it can't do.
#[derive(Drop)]
pub struct Streams<I, O, E> {
    pub input: I,
    pub output: O,
    pub errors: E,
}

// The standard streams.
impl From<HostRuntime> for Streams<Stdin, Stdout, Stderr> {
    fn from(rt: HostRuntime) -> Self {
        Streams {
            input: rt.stdin(),
            output: rt.stdout(),
            errors: rt.stderr(),
        }
    }
}

// Why not all of a tape was read and printed.
#[derive(Clone, Copy, Debug, PartialEq, Eq)]
pub enum Failure {
    Input,
    Output,
    TooLong,
}

impl fmt::Display for Failure {
    ghost output = { λ f. Some (text_of f) };

    fn fmt<W: fmt::Write>(&self, f: &mut fmt::Formatter<W>) -> fmt::Result {
        f.write_str(match self {
            Failure::Input => "standard input can't be read",
            Failure::Output => "standard output can't be written",
            Failure::TooLong => "reading stopped after 2^48 reads",
        })
    }
}

impl Error for Failure {}

// A block: the bytes held, and what is there to be read after them, up to the block's end. Gives how many bytes came, or none at the input's end.
fn read_more<I: Read>(
    input: &mut I,
    held: &[u8],
    block: &mut [u8],
) -> Result<Option<usize>, Failure>
    requires { length held.now < length block.old }
    ensures held_first { take (length held.now) block.new ≡ held.now }
    ensures fits { IfOk result (λ r. length held.now + unwrap_or r 0 ≤ length block.new) }
    ensures consumed { IfOk result (λ r. Consumes (I.remaining input.old) (I.remaining input.new) (brought held.now r block.new)) }
    ensures at_end { IfOk result (λ r. IsNone r → IsAtEnd (I.remaining input.new)) }
    ensures none_lost { OnErr result (Keeps (I.remaining input.old) (I.remaining input.new)) }
    ensures err { IfErr result (λ e. e ≡ Failure.Input) }
{
    block[..held.len()].copy_from_slice(held);
    match input.read(&mut block[held.len()..]) {
        Ok(0) => Ok(None),
        Ok(count) => Ok(Some(count)),
        Err(_) => Err(Failure::Input),
    }
}

// The bytes of a block to take: its whole records, and at the input's end, where a read brought none, the rest too.
#[tactic(auto, unfolding(tapes::specs::Blocks::to_take))]
fn to_take(filled: usize, read: Option<usize>) -> usize
    ensures taken { result ≡ Blocks.to_take (is_none read) filled }
    ensures rest { (result ≤ filled) × (filled < result + record_length) }
{
    match read {
        Some(_) => filled - filled % RECORD,
        None => filled,
    }
}

// The bytes after those taken are held for the next turn.
fn hold(rest: &[u8]) -> ArrayVec<u8, HELD>
    requires { length rest.now < record_length }
    ensures { result.items ≡ rest.now }
{
    ArrayVec::try_from(rest).unwrap()
}

// A tape while it is printed.
#[derive(Drop)]
struct Printer {
    style: Style,
    // Where it stands between two turns: the place, and the bytes held, the first ones of a record that has not all come.
    place: RouterPlace,
    held: ArrayVec<u8, HELD>,
    // The last turn's block and text.
    block: [u8; BLOCK],
    lines: ArrayVec<u8, LINES>,
    // How many reads there were, one in each turn, and how many bytes they brought.
    reads: u64,
    bytes: u64,
}

impl Printer {
    // Before the first turn: nothing has come in.
    fn new(style: Style) -> Printer
        ensures { (result.style ≡ style) × (result.reads ≡ 0) × (result.bytes ≡ 0) × (between_of result ≡ Blocks.unread) }
    {
        Printer {
            style,
            place: RouterPlace::begin(),
            held: ArrayVec::new(),
            block: [0; BLOCK],
            lines: ArrayVec::new(),
            reads: 0,
            bytes: 0,
        }
    }

    // Takes the first bytes of the block, and prints what they come to; at the input's end, where a read brought none, what goes out then too.
    #[tactic(auto, unfolding(tapes::specs::Blocks::with_end, tapes::specs::Blocks::turned))]
    fn take_records(&mut self, taken: usize, read: Option<usize>)
        requires { (taken ≤ 1024 * record_length) × (self.old.place.number < 2 ^ 58) }
        ensures turned { ◌≡◌ {A = Blocks.Turned}
            (record { place = place_of self.new.place; text = self.new.lines.items })
            (Blocks.with_end self.old.style (is_none read) (Blocks.turned self.old.style (place_of self.old.place) (take taken self.old.block))) }
        ensures at_most_a_block { self.new.place.number ≤ self.old.place.number + 1024 }
        ensures others_kept { (self.new.style ≡ self.old.style) × (self.new.held ≡ self.old.held) × (self.new.block ≡ self.old.block) × (self.new.reads ≡ self.old.reads) × (self.new.bytes ≡ self.old.bytes) }
    {
        self.lines.clear();
        self.place
            .run(&self.block[..taken], self.style, &mut self.lines);
        if read.is_none() {
            printing::put_end(&mut self.lines, self.style, &self.place.page);
        }
    }

    // A block: the bytes held, and what is read after them. Its records are taken and printed, and the first bytes of a record that has not all come are held again. Gives how many bytes were read, or none at the input's end.
    fn turn<I: Read>(&mut self, input: &mut I) -> Result<Option<usize>, Failure>
        requires { BlockPerRead self.old × (self.old.reads < 2 ^ 48) }
        ensures block_after { IfOk result (λ r. take (array_vec_len self.old.held + unwrap_or r 0) self.new.block ≡ self.old.held.items ++ brought self.old.held.items r self.new.block) }
        ensures turned { IfOk result (λ r. ◌≡◌ {A = Blocks.Turn}
            (record { left = between_of self.new; text = self.new.lines.items })
            (Blocks.turn self.old.style (is_none r) (between_of self.old) (brought self.old.held.items r self.new.block))) }
        ensures fits { IfOk result (λ r. array_vec_len self.old.held + unwrap_or r 0 ≤ length self.new.block) }
        ensures bytes { IfOk result (λ r. self.new.bytes ≡ self.old.bytes + unwrap_or r 0) }
        ensures consumed { IfOk result (λ r. Consumes (I.remaining input.old) (I.remaining input.new) (brought self.old.held.items r self.new.block)) }
        ensures at_end { IfOk result (λ r. IsNone r → IsAtEnd (I.remaining input.new)) }
        ensures none_lost { OnErr result (Keeps (I.remaining input.old) (I.remaining input.new)) }
        ensures as_before { OnErr result ((between_of self.new ≡ between_of self.old) × (self.new.bytes ≡ self.old.bytes) × (take (array_vec_len self.old.held) self.new.block ≡ self.old.held.items)) }
        ensures err { IfErr result (λ e. e ≡ Failure.Input) }
        ensures part { PartOfRecord self.new.held }
        ensures block_per_read { BlockPerRead self.new }
        ensures style { self.new.style ≡ self.old.style }
        ensures reads { self.new.reads ≡ self.old.reads + 1 }
    {
        self.reads += 1;
        let read = read_more(input, &self.held, &mut self.block)?;
        let filled = self.held.len() + read.unwrap_or(0);
        let taken = to_take(filled, read);
        self.take_records(taken, read);
        self.held = hold(&self.block[taken..filled]);
        self.bytes += read.unwrap_or(0) as u64;
        Ok(read)
    }

    // Writes a turn's text at once.
    fn write_out<O: Write>(&self, output: &mut O) -> Result<(), Failure>
        ensures written { OnOk result (Appends (O.contents output.old) (O.contents output.new) self.now.lines.items) }
        ensures err { IfErr result (λ e. e ≡ Failure.Output) }
    {
        output.write_all(&self.lines).map_err(|_| Failure::Output)?;
        output.flush().map_err(|_| Failure::Output)
    }

    // The whole tape, turn after turn.
    fn run<I: Read, O: Write>(&mut self, input: &mut I, output: &mut O) -> Result<(), Failure>
        requires { (self.old.reads ≡ 0) × (self.old.bytes ≡ 0) × (between_of self.old ≡ Blocks.unread) }
        ensures reached { OnOk result (HasReached self.old.style true self.new) }
        ensures stopped { IfErr result (λ e. (ended : Bool) × (ended ≡ true → e ≡ Failure.Output) × HasReached self.old.style ended self.new) }
        ensures too_long { IsErrOf result Failure.TooLong → self.new.reads ≡ 2 ^ 48 }
        ensures printed { OnOk result (PrintsTape self.old.style (I.remaining input.old) (O.contents output.old) (O.contents output.new)) }
    {
        for _ in 0..READS {
            let read = self.turn(input)?;
            self.write_out(output)?;
            if read.is_none() {
                return Ok(());
            }
        }
        Err(Failure::TooLong)
    }
}

// Prints a tape: the program of that name, which may be any bytes, so that it is no `&str`. Ok where the tape was read to its end and all of it printed; else a line on standard error says, after the name, why not. Where even that can't be written, nothing is left to say.
pub fn print<I: Read, O: Write, E: Write>(
    streams: &mut Streams<I, O, E>,
    name: &[u8],
    style: Style,
) -> Result<(), Failure>
    ensures { OnOk result (PrintsTape style (I.remaining streams.old.input) (O.contents streams.old.output) (O.contents streams.new.output)) }
{
    let mut printer = Printer::new(style);
    let printed = printer.run(&mut streams.input, &mut streams.output);
    if let Err(failure) = printed {
        // What is said goes out by one write with its line feed, so that nothing comes between them; the longest has 33 bytes.
        let mut line = ArrayString::<48>::new();
        let _ = fmt::Write::write_fmt(&mut line, format_args!("{failure}\n"));
        let _ = streams.errors.write_all(name);
        let _ = streams.errors.write_all(line.as_bytes());
    }
    printed
}
