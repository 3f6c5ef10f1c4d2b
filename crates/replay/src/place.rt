// A machine at a moment of a run, and a checkpoint from which it can be had again.

ghost use Rattle.std.specs.Prelude.{◌≡◌, length};

use landmark::{Code, Landmark};
use machine::Machine;

// A machine with its landmark, the number of units before it, and how many of those took an event.
#[derive(Drop)]
pub struct Cursor<M: Machine, L: Landmark> {
    pub machine: M,
    pub mark: L,
    pub unit: u32,
    pub taken: usize,
}

// The length of the largest image: in generic code an array's length cannot be a trait's constant.
pub(crate) const LARGEST_IMAGE: usize = 4608;

// What a cursor was at: the image takes as much of the room as the kind of machine needs.
#[derive(Clone, Copy)]
pub struct Checkpoint {
    pub unit: u32,
    pub taken: usize,
    pub code: Code,
    pub image: [u8; LARGEST_IMAGE],
    ghost whole: { length image ≡ 4608 },
}
