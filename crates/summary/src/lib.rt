// What the report says of its input. As yet it makes the checks that need no guest.
#![tactic(auto)]

ghost use Rattle.std.specs.Prelude.{◌≡◌, Some, ok_or};
ghost use Rattle.summary.specs.Summaries.{guest_of, guest_byte, mark_of, mark_byte, unknown, unknown_told, named_kinds, summary_of, printed, line_of};

use faults::{FileFault, Place, Refusal};
use recording::{byte_at, check_start};
use std::error::Error;
use std::fmt;

// The longest input that the report reads.
const MOST_BYTES: usize = 8192;

// The guests and the kinds of landmark that the report knows, each by its byte in a recording. They are two types, for a guest is no kind of
// landmark; one generic over both would still need a table of bytes for each.
#[derive(Clone, Copy, Default)]
pub enum Guest {
    #[default]
    Mos6502 = 1,
    Rv32i = 2,
}

#[derive(Clone, Copy, Default)]
pub enum Mark {
    #[default]
    Count = 1,
    Branch = 2,
}

// A byte that names no kind.
#[derive(Clone, Copy, Debug)]
pub struct UnknownKind(pub u8);

#[derive(Clone, Copy, Default)]
pub struct Kinds {
    pub guest: Guest,
    pub mark: Mark,
}

// The start of a recording that passes the checks.
#[derive(Clone, Copy)]
pub struct Opening {
    pub kinds: Kinds,
    pub length: usize,
}

// The line that the report prints of its input.
#[derive(Clone, Copy)]
pub struct Summary(pub Result<Opening, Refusal>);

impl TryFrom<u8> for Guest {
    type Error = UnknownKind;

    ghost try_from_gives = { λ b r. r ≡ ok_or (guest_of b) (unknown b) };

    fn try_from(byte: u8) -> Result<Guest, UnknownKind> {
        match byte {
            1 => Ok(Guest::Mos6502),
            2 => Ok(Guest::Rv32i),
            _ => Err(UnknownKind(byte)),
        }
    }
}

impl From<Guest> for u8 {
    ghost from_gives = { λ g r. r ≡ guest_byte g };

    fn from(guest: Guest) -> u8 {
        guest as u8
    }
}

impl TryFrom<u8> for Mark {
    type Error = UnknownKind;

    ghost try_from_gives = { λ b r. r ≡ ok_or (mark_of b) (unknown b) };

    fn try_from(byte: u8) -> Result<Mark, UnknownKind> {
        match byte {
            1 => Ok(Mark::Count),
            2 => Ok(Mark::Branch),
            _ => Err(UnknownKind(byte)),
        }
    }
}

impl From<Mark> for u8 {
    ghost from_gives = { λ m r. r ≡ mark_byte m };

    fn from(mark: Mark) -> u8 {
        mark as u8
    }
}

impl fmt::Display for UnknownKind {
    ghost output = { λ e. Some (unknown_told e) };

    fn fmt<W: fmt::Write>(&self, f: &mut fmt::Formatter<W>) -> fmt::Result {
        write!(f, "no kind has the byte {}", self.0)
    }
}

impl Error for UnknownKind {}

// The kinds that the input is read for: those that its bytes name, or the first of each where either is absent or unknown.
pub fn kinds_of(file: &[u8]) -> Kinds
    ensures { result ≡ named_kinds file.now }
{
    match (
        Guest::try_from(byte_at(file, 5)),
        Mark::try_from(byte_at(file, 6)),
    ) {
        (Ok(guest), Ok(mark)) => Kinds { guest, mark },
        _ => Kinds::default(),
    }
}

// What the report finds: how the recording starts, or why it is refused.
pub fn summarize(file: &[u8]) -> Result<Opening, Refusal>
    ensures { result ≡ summary_of file.now }
{
    if file.len() > MOST_BYTES {
        return Err(FileFault::StatedLength.into());
    }
    let kinds = kinds_of(file);
    check_start(file, kinds.guest.into(), kinds.mark.into())?;
    Ok(Opening {
        kinds,
        length: file.len(),
    })
}

// The one number of a place that is printed: of a code its minor word alone, where a place's own Display gives both.
pub fn place_number(place: Place) -> usize
    ensures { result ≡ printed place }
{
    match place {
        Place::At(at) => at,
        Place::Entry(entry) => entry.offset,
        Place::Mark(code) => code.minor as usize,
    }
}

impl fmt::Display for Summary {
    ghost output = { λ s. Some (line_of s.0) };

    fn fmt<W: fmt::Write>(&self, f: &mut fmt::Formatter<W>) -> fmt::Result {
        match self.0 {
            Ok(Opening { kinds, length }) => {
                let guest = u8::from(kinds.guest);
                let mark = u8::from(kinds.mark);
                write!(f, "guest {guest} mark {mark} length {length}")
            }
            Err(Refusal { number, place, .. }) => {
                let at = place_number(place);
                write!(f, "refused {number} at {at}")
            }
        }
    }
}
