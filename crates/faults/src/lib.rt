// What a refused call reports. Each layer has its own faults, and keeps those of the layer below whole.
#![tactic(auto)]

ghost use Rattle.std.specs.Prelude.{◌≡◌, Some};
ghost use Rattle.faults.specs.Refusals.{told, refusal_told, refusal_of_guest, file_refusal, session_refusal};
ghost use Rattle.faults.specs.declared.FileFault.TheVariants.{InImage};
ghost use Rattle.faults.specs.declared.SessionFault.TheVariants.{InFile, OfGuest};

use landmark::Code;
use machine::GuestFault;
use std::error::Error;
use std::fmt;

// The part of the recorder that found the fault.
#[derive(Clone, Copy, Debug)]
pub enum Layer {
    File,
    Guest,
    Landmark,
    Session,
}

// An entry of a recording, by its index (the last landmark comes after the last event) and its offset in the file.
#[derive(Clone, Copy, Debug)]
pub struct EntryAt {
    pub index: u16,
    pub offset: usize,
}

// Where a fault is: a length, an offset or a unit; an entry of a recording; or the code of a landmark.
#[derive(Clone, Copy, Debug)]
pub enum Place {
    At(usize),
    Entry(EntryAt),
    Mark(Code),
}

// A refusal as it is reported: its number, its place and its layer. The number is one that the product prints, and no code for a case: the cases
// are the faults below.
#[derive(Clone, Copy, Debug)]
pub struct Refusal {
    pub number: u8,
    pub place: Place,
    pub layer: Layer,
}

// What the reader of a recording refuses: a file under 21 bytes, with its length; another version; a stated length that is not the file's; the
// guest or landmark byte of other kinds; an image that the machine refuses; a length that the image and the events do not make, with the
// offset of the event count; an event whose kind or data byte is wrong; and a code that the landmark kind lacks.
#[derive(Clone, Copy)]
pub enum FileFault {
    Truncated(usize),
    Version,
    StatedLength,
    GuestByte,
    LandmarkByte,
    InImage(GuestFault),
    Extent(usize),
    EventBytes(EntryAt),
    UnknownCode(EntryAt),
}

// What a session refuses: a file that the reader refuses; what the guest refuses; an event or a last landmark of a file that its run does not
// come to; an instruction or an event on a stopped guest, or past the last unit that a run may have; one event too many; an event that the
// guest is not ready for; a ninth kept unit; a code that no moment has; a move out of the run; and memory that is too short, with the length
// needed. A unit is the number of units of the run, or for a move the present unit.
#[derive(Clone, Copy)]
pub enum SessionFault {
    InFile(FileFault),
    OfGuest(GuestFault),
    Unreached(EntryAt),
    Stopped(u32),
    RunFull(u32),
    JournalFull,
    NotReady(u32),
    KeptFull,
    NoSuchMoment(Code),
    OutsideRun(u32),
    ShortMemory(usize),
}

// An entry is told by its offset.
impl fmt::Display for Place {
    ghost output = { λ p. Some (told p) };

    fn fmt<W: fmt::Write>(&self, f: &mut fmt::Formatter<W>) -> fmt::Result {
        match *self {
            Place::At(at) => write!(f, "{at}"),
            Place::Entry(entry) => write!(f, "{}", entry.offset),
            Place::Mark(code) => write!(f, "{code}"),
        }
    }
}

impl fmt::Display for Refusal {
    ghost output = { λ r. Some (refusal_told r) };

    fn fmt<W: fmt::Write>(&self, f: &mut fmt::Formatter<W>) -> fmt::Result {
        write!(f, "refused {} at {}", self.number, self.place)
    }
}

impl Error for Refusal {}

// A fault of the guest, reported by the guest itself.
impl From<GuestFault> for Refusal {
    ghost from_gives = { λ f r. r ≡ refusal_of_guest f };

    fn from(fault: GuestFault) -> Refusal {
        let (number, at) = match fault {
            GuestFault::WrongLength => (5, 0),
            GuestFault::Unlawful(offset) => (7, usize::from(offset)),
            GuestFault::ShortBuffer(needed) => (17, needed),
        };
        Refusal {
            number,
            place: Place::At(at),
            layer: Layer::Guest,
        }
    }
}

// A fault of the guest in an image that a recording holds: the number and the layer are the guest's, the place is the recording's.
fn image_refusal(fault: GuestFault) -> Refusal
    ensures { result ≡ file_refusal (InImage fault) }
{
    let at = match fault {
        GuestFault::WrongLength => 7,
        GuestFault::Unlawful(offset) => 11 + usize::from(offset),
        GuestFault::ShortBuffer(needed) => needed,
    };
    Refusal {
        place: Place::At(at),
        ..Refusal::from(fault)
    }
}

impl From<FileFault> for Refusal {
    ghost from_gives = { λ f r. r ≡ file_refusal f };

    fn from(fault: FileFault) -> Refusal {
        let (number, place, layer) = match fault {
            FileFault::Truncated(length) => (1, Place::At(length), Layer::File),
            FileFault::Version => (2, Place::At(0), Layer::File),
            FileFault::StatedLength => (3, Place::At(1), Layer::File),
            FileFault::GuestByte => (4, Place::At(5), Layer::File),
            FileFault::LandmarkByte => (4, Place::At(6), Layer::File),
            FileFault::InImage(found) => return image_refusal(found),
            FileFault::Extent(offset) => (6, Place::At(offset), Layer::File),
            FileFault::EventBytes(entry) => (8, Place::Entry(entry), Layer::File),
            FileFault::UnknownCode(entry) => (8, Place::Entry(entry), Layer::Landmark),
        };
        Refusal {
            number,
            place,
            layer,
        }
    }
}

impl From<SessionFault> for Refusal {
    ghost from_gives = { λ f r. r ≡ session_refusal f };

    fn from(fault: SessionFault) -> Refusal {
        let (number, place) = match fault {
            SessionFault::InFile(found) => return found.into(),
            SessionFault::OfGuest(found) => return found.into(),
            SessionFault::Unreached(entry) => (9, Place::Entry(entry)),
            SessionFault::Stopped(unit) => (10, Place::At(unit as usize)),
            SessionFault::RunFull(unit) => (11, Place::At(unit as usize)),
            SessionFault::JournalFull => (12, Place::At(256)),
            SessionFault::NotReady(unit) => (13, Place::At(unit as usize)),
            SessionFault::KeptFull => (14, Place::At(8)),
            SessionFault::NoSuchMoment(code) => (15, Place::Mark(code)),
            SessionFault::OutsideRun(unit) => (16, Place::At(unit as usize)),
            SessionFault::ShortMemory(needed) => (17, Place::At(needed)),
        };
        Refusal {
            number,
            place,
            layer: Layer::Session,
        }
    }
}

// What the machine refuses of a recording's image is a fault of the recording.
impl From<GuestFault> for FileFault {
    ghost from_gives = { λ f r. r ≡ InImage f };

    fn from(fault: GuestFault) -> FileFault {
        FileFault::InImage(fault)
    }
}

impl From<FileFault> for SessionFault {
    ghost from_gives = { λ f r. r ≡ InFile f };

    fn from(fault: FileFault) -> SessionFault {
        SessionFault::InFile(fault)
    }
}

impl From<GuestFault> for SessionFault {
    ghost from_gives = { λ f r. r ≡ OfGuest f };

    fn from(fault: GuestFault) -> SessionFault {
        SessionFault::OfGuest(fault)
    }
}
