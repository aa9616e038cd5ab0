// A tape's records: their length, their kinds, and questions 9 to 12.
#![tactic(auto)]

ghost use Rattle.std.specs.Prelude.{◌≡◌, ◌≤◌, IfOk};
ghost use Rattle.rules.specs.Areas.{byte};
ghost use Rattle.records.specs.Records.{record_length, blank, unused_refusal, arrival_refusal, record_refusal, number_of, answer_of, byte_of, Decodes};

use layout::Port;

// The bytes of a record.
pub const RECORD: usize = 24;

// What a record is, by its byte 0.
#[derive(Clone, Copy, Debug, PartialEq, Eq, Hash)]
pub enum Kind {
    Control,
    Arrival,
    Tick,
}

impl TryFrom<u8> for Kind {
    type Error = Refusal;

    ghost try_from_gives = { Decodes };

    fn try_from(byte: u8) -> Result<Self, Refusal> {
        match byte {
            0x43 => Ok(Kind::Control),
            0x41 => Ok(Kind::Arrival),
            0x54 => Ok(Kind::Tick),
            _ => Err(Refusal::UnknownKind),
        }
    }
}

impl From<Kind> for u8 {
    ghost from_gives = { λ kind byte. byte ≡ byte_of kind };

    fn from(kind: Kind) -> u8 {
        match kind {
            Kind::Control => 0x43,
            Kind::Arrival => 0x41,
            Kind::Tick => 0x54,
        }
    }
}

// Why the questions of a record refuse it.
#[derive(Clone, Copy, Debug, PartialEq, Eq, Hash)]
pub enum Refusal {
    Short,
    UnknownKind,
    Unused,
    Occupied,
}

impl From<Refusal> for u8 {
    ghost from_gives = { λ refusal n. n ≡ number_of refusal };

    fn from(refusal: Refusal) -> u8 {
        match refusal {
            Refusal::Short => 9,
            Refusal::UnknownKind => 10,
            Refusal::Unused => 11,
            Refusal::Occupied => 12,
        }
    }
}

// Every byte is zero.
fn is_blank(bytes: &[u8]) -> bool
    ensures { result ≡ blank bytes.now }
{
    bytes.iter().all(|byte| *byte == 0)
}

// Are unused bytes zero, those from a place on?
#[tactic(auto, unfolding(crate::specs::Records::unused_refusal))]
fn unused_questions(bytes: &[u8; RECORD], from: usize) -> Result<(), Refusal>
    requires { from ≤ record_length }
    ensures { answer_of result ≡ unused_refusal bytes.now from }
{
    if is_blank(&bytes[from..]) {
        Ok(())
    } else {
        Err(Refusal::Unused)
    }
}

// Of an arrival: are unused bytes zero and is the port at most 4, is that port without a packet for the coming tick?
#[tactic(auto, unfolding(crate::specs::Records::arrival_refusal))]
fn arrival_questions(pending: u8, bytes: &[u8; RECORD]) -> Result<(), Refusal>
    ensures { answer_of result ≡ arrival_refusal pending bytes.now }
{
    if !is_blank(&bytes[2..4]) {
        return Err(Refusal::Unused);
    }
    let port = Port::new(bytes[1]).ok_or(Refusal::Unused)?;
    if layout::has_port(pending, port) {
        return Err(Refusal::Occupied);
    }
    Ok(())
}

// Questions 9 to 12 of a record, when the ports of a mask have a packet for the coming tick already: its kind, or why it is refused.
#[tactic(auto, unfolding(crate::specs::Records::record_refusal, crate::specs::Records::kind_refusal))]
pub fn questions(pending: u8, bytes: &[u8]) -> Result<Kind, Refusal>
    ensures answered { answer_of result ≡ record_refusal pending bytes.now }
    ensures kind { IfOk result (λ kind. byte_of kind ≡ byte bytes.now 0) }
{
    let Some(bytes) = bytes.as_array::<RECORD>() else {
        return Err(Refusal::Short);
    };
    let kind = Kind::try_from(bytes[0])?;
    let answer = match kind {
        Kind::Control => unused_questions(bytes, 3),
        Kind::Arrival => arrival_questions(pending, bytes),
        Kind::Tick => unused_questions(bytes, 2),
    };
    answer.map(|()| kind)
}
