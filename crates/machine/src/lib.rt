// The interface of a guest: what the recorder knows of the machine whose run it records.
#![tactic(auto)]

ghost use Rattle.std.specs.Prelude.{◌≡◌, ℕ, true, false, List, is_ok, if◌then◌else◌, Some, None, MatchResult};
ghost use Rattle.machine.specs.Kinds.{Kind, ImageLaws, Rises};
ghost use Rattle.machine.specs.Faults.{told, load_fault, save_answer, saved, step_answer, stepped};

use std::error::Error;
use std::fmt;

// What reaches a guest from outside: the timer, or a switch with a data byte.
#[derive(Clone, Copy)]
pub enum Event {
    Timer,
    Switch(u8),
}

// What a machine refuses: an image of the wrong length, an image that is not lawful, with the offset that offends, and a buffer that is too
// short, with the length needed.
#[derive(Clone, Copy, Debug)]
pub enum GuestFault {
    WrongLength,
    Unlawful(u16),
    ShortBuffer(usize),
}

impl fmt::Display for GuestFault {
    ghost output = { λ f. Some (told f) };

    fn fmt<W: fmt::Write>(&self, f: &mut fmt::Formatter<W>) -> fmt::Result {
        match *self {
            GuestFault::WrongLength => write!(f, "wrong length"),
            GuestFault::Unlawful(offset) => write!(f, "unlawful at {offset}"),
            GuestFault::ShortBuffer(needed) => write!(f, "short, needs {needed}"),
        }
    }
}

impl Error for GuestFault {}

// A guest. It means an image, a list of bytes; all that its calls do is said of that image, and a refused call leaves the machine as it was.
pub trait Machine: Sized + Drop {
    // what the kind of machine fixes about images, and the image that a machine means
    ghost kind: { Kind };

    ghost image: { Self → List ℕ };

    // the image length, and the guest byte that names the kind in a recording
    const IMAGE_BYTES: usize;

    ghost IMAGE_BYTES: { ℕ };

    const GUEST_BYTE: u8;

    ghost GUEST_BYTE: { ℕ };

    // a machine with the blank image
    fn fresh() -> Self
        ensures { image result ≡ kind.blank };

    // takes the image if it is lawful
    fn load(&mut self, bytes: &[u8]) -> Result<(), GuestFault>
        ensures succeeds { is_ok result ≡ kind.lawful bytes.now }
        ensures loads { MatchResult result (λ _. image self.new ≡ bytes.now) (λ f. (f ≡ load_fault kind bytes.now) × (self.new ≡ self.old)) };

    // puts the image at the front of the buffer and answers its length
    fn save(&self, buffer: &mut [u8]) -> Result<usize, GuestFault>
        ensures answer { result ≡ save_answer kind buffer.old }
        ensures memory { buffer.new ≡ saved kind (image self.now) buffer.old };

    // the address of the next instruction
    fn place(&self) -> u32
        ensures { result ≡ kind.place (image self.now) };

    fn stopped(&self) -> bool
        ensures { result ≡ kind.stopped (image self.now) };

    fn ready(&self, event: Event) -> bool
        ensures { result ≡ kind.ready event (image self.now) };

    fn lamp(&self) -> u8
        ensures { result ≡ kind.lamp (image self.now) };

    // carries out one instruction and tells whether it was a transfer; on a stopped machine no unit takes place. That this and take answer an `Option`
    // of the transfer report, and no enum of three, is a rule of the interface.
    fn step(&mut self) -> Option<bool>
        ensures answer { result ≡ step_answer kind (image self.old) }
        ensures next { image self.new ≡ stepped kind (image self.old) }
        ensures left { kind.stopped (image self.old) ≡ true → self.new ≡ self.old };

    // takes an event, always a transfer; where the machine is not ready for it no unit takes place
    fn take(&mut self, event: Event) -> Option<bool>
        ensures answer { result ≡ (if kind.ready event (image self.old) then Some true else None) }
        ensures next { image self.new ≡ (if kind.ready event (image self.old) then kind.taken event (image self.old) else image self.old) }
        ensures left { kind.ready event (image self.old) ≡ false → self.new ≡ self.old };

    // the two constants are the kind's numbers
    ghost sized: { IMAGE_BYTES ≡ kind.size };

    ghost named: { GUEST_BYTE ≡ kind.guest };

    // every machine means a lawful image
    ghost lawful: { (m : Self) → kind.lawful (image m) ≡ true };

    // the lines of the rules about images, one by one
    ghost kept: { ImageLaws kind };

    // on a running machine a step that is no transfer leaves a higher place than it found
    ghost rises: { Rises kind };
}
