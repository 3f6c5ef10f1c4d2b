// The count kind: a landmark is the number of units since the start.

ghost use Rattle.std.specs.Prelude.{◌<◌};
ghost use Rattle.landmark.specs.Count.{counting};
ghost use Rattle.landmark.specs.Counts.{counting_laws};
ghost use Rattle.std.proofs.Common.{rules};

use super::{Code, Landmark};
use std::cmp::Ordering;

#[derive(Clone, Copy)]
pub struct Count {
    units: u32,
    ghost fits: { units < 4294967296 },
}

impl Landmark for Count {
    ghost marking = { counting };

    ghost meaning = { λ l. record { major = 0; minor = l.units } };

    const LANDMARK_BYTE: u8 = 1;

    ghost LANDMARK_BYTE = { 1 };

    ghost named = { Prim.search rules };

    ghost had = { Prim.search rules };

    ghost kept = { counting_laws };

    fn start(_place: u32) -> Count {
        Count { units: 0 }
    }

    fn after(self, _place: u32, _transfer: bool) -> Count {
        Count {
            units: self.units.saturating_add(1),
        }
    }

    fn compare(self, other: Count) -> Ordering {
        self.code().cmp(&other.code())
    }

    fn code(self) -> Code {
        Code {
            major: 0,
            minor: self.units,
        }
    }

    fn from_code(code: Code) -> Option<Count> {
        (code.major == 0).then_some(Count { units: code.minor })
    }
}
