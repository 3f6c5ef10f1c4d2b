// The table of the kept units: at most eight rows, of which the first is the start of the run.

ghost use Rattle.std.specs.Prelude.{◌≤◌};
ghost use Rattle.arrayvec.specs.ArrayVec.{array_vec_len};

use crate::MOST_KEPT;
use arrayvec::ArrayVec;
use landmark::Landmark;
use replay::Checkpoint;

#[derive(Drop)]
pub struct Checkpoints {
    pub(crate) rows: ArrayVec<Checkpoint, MOST_KEPT>,
    ghost some: { 1 ≤ array_vec_len rows },
    ghost few: { array_vec_len rows ≤ 8 },
}

// Where a move is to go: to a unit, or to the unit that has a landmark.
#[derive(Clone, Copy)]
pub enum Target<L: Landmark> {
    Unit(u32),
    Mark(L),
}
