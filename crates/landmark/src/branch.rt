// The branch kind: a landmark is the number of transfers since the start, with the place.

ghost use Rattle.std.specs.Prelude.{◌<◌};
ghost use Rattle.landmark.specs.Branch.{branching};
ghost use Rattle.landmark.specs.Branches.{branching_laws};
ghost use Rattle.std.proofs.Common.{rules};

use super::{Code, Landmark};
use std::cmp::Ordering;

#[derive(Clone, Copy)]
pub struct Branch {
    transfers: u32,
    place: u32,
    ghost transfers_fit: { transfers < 4294967296 },
    ghost place_fits: { place < 4294967296 },
}

impl Landmark for Branch {
    ghost marking = { branching };

    ghost meaning = { λ l. record { major = l.transfers; minor = l.place } };

    const LANDMARK_BYTE: u8 = 2;

    ghost LANDMARK_BYTE = { 2 };

    ghost named = { Prim.search rules };

    ghost had = { Prim.search rules };

    ghost kept = { branching_laws };

    fn start(place: u32) -> Branch {
        Branch {
            transfers: 0,
            place,
        }
    }

    fn after(self, place: u32, transfer: bool) -> Branch {
        Branch {
            transfers: self.transfers.saturating_add(u32::from(transfer)),
            place,
        }
    }

    fn compare(self, other: Branch) -> Ordering {
        self.code().cmp(&other.code())
    }

    fn code(self) -> Code {
        Code {
            major: self.transfers,
            minor: self.place,
        }
    }

    fn from_code(code: Code) -> Option<Branch> {
        Some(Branch {
            transfers: code.major,
            place: code.minor,
        })
    }
}
