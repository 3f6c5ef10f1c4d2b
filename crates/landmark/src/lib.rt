// The interface of a landmark, and its two kinds: the count of units, and the count of transfers with the place.
#![tactic(auto)]

ghost use Rattle.std.specs.Prelude.{◌≡◌, ℕ, true, is_some, IfSome, Some};
ghost use Rattle.landmark.specs.Markings.{Marking, LandmarkLaws};
ghost use Rattle.landmark.specs.Codes.{told};
ghost use Rattle.landmark.specs.declared.Code.{Code};

use std::cmp::Ordering;
use std::fmt;

mod branch;
mod count;

pub use branch::Branch;
pub use count::Count;

// What a landmark is written as: two words. Codes are ordered by the major word, and where that is the same by the minor.
#[derive(Clone, Copy, Debug, Default, PartialEq, Eq, PartialOrd, Ord)]
pub struct Code {
    pub major: u32,
    pub minor: u32,
}

impl fmt::Display for Code {
    ghost output = { λ c. Some (told c) };

    fn fmt<W: fmt::Write>(&self, f: &mut fmt::Formatter<W>) -> fmt::Result {
        let Code { major, minor } = *self;
        write!(f, "({major}, {minor})")
    }
}

// A landmark: the name of one moment of a run. It means a code. A landmark's value beyond its code is free; no call tells it.
pub trait Landmark: Sized + Copy + Drop {
    // what the kind of landmark fixes about codes, and the code that a landmark means
    ghost marking: { Marking };

    ghost meaning: { Self → Code };

    // the landmark byte that names the kind in a recording
    const LANDMARK_BYTE: u8;

    ghost LANDMARK_BYTE: { ℕ };

    // the landmark of a run that begins at the place
    fn start(place: u32) -> Self
        ensures { meaning result ≡ marking.start place };

    // the landmark one unit on, by the new place and by whether the unit was a transfer
    fn after(self, place: u32, transfer: bool) -> Self
        ensures { meaning result ≡ marking.after (meaning self) place transfer };

    // whether this landmark comes before the other, is the same or comes after it. It has no body here and is no `Ord`: the order is the kind's own,
    // and values of one code may differ.
    fn compare(self, other: Self) -> Ordering
        ensures { result ≡ marking.order (meaning self) (meaning other) };

    // The code and back. As `From` and `TryFrom` above the trait, what they give would have to be tied to `meaning` by a law for each.
    fn code(self) -> Code
        ensures { result ≡ meaning self };

    // the landmark with the code, or none where the kind lacks it
    fn from_code(code: Code) -> Option<Self>
        ensures had { is_some result ≡ marking.has code }
        ensures means { IfSome result (λ l. meaning l ≡ code) };

    // the constant is the kind's number
    ghost named: { LANDMARK_BYTE ≡ marking.byte };

    // each landmark's code is one that the kind has
    ghost had: { (l : Self) → marking.has (meaning l) ≡ true };

    // the lines of the rules about codes, one by one; among them, that the landmarks of a run rise
    ghost kept: { LandmarkLaws marking };
}
