// The kept units of a session, each with what a replay needs to begin there.
#![tactic(auto)]

ghost use Rattle.std.specs.Prelude.{◌≡◌, ◌≤◌, false, [], ◌∷◌, length, None, is_some, ◌==◌, if◌then◌else◌, nat_le, nat_lt};
ghost use Rattle.std.specs.List.{list_any};
ghost use Rattle.machine.specs.Kinds.{Kind};
ghost use Rattle.replay.specs.declared.place.Checkpoint.{Checkpoint};
ghost use Rattle.replay.specs.Cursors.{held};
ghost use Rattle.replay.specs.Positions.{Position};
ghost use Rattle.checkpoints.specs.Nearest.{is_not_past, nearest, first_or, has_unit};
ghost use Rattle.checkpoints.specs.Rows.{kept, with_position, aim};

use arrayvec::ArrayVec;
use landmark::Landmark;
use replay::Checkpoint;

mod table;

pub use table::{Checkpoints, Target};

// The most units that are kept.
pub const MOST_KEPT: usize = 8;

// Whether the checkpoint is not past the target.
pub fn not_past<L: Landmark>(target: Target<L>, row: &Checkpoint) -> bool
    ensures { (K : Kind) → result ≡ is_not_past L.Landmark.marking (aim L.Landmark.meaning target) (held K row.now) }
{
    match target {
        Target::Unit(unit) => row.unit <= unit,
        Target::Mark(mark) => {
            L::from_code(row.code).is_some_and(|here| here.compare(mark).is_le())
        }
    }
}

// Whether the row is not past the target and not before the best so far.
pub fn is_closer<L: Landmark>(target: Target<L>, best: &Checkpoint, row: &Checkpoint) -> bool
    ensures { (K : Kind) → result ≡ (if is_not_past L.Landmark.marking (aim L.Landmark.meaning target) (held K row.now) then nat_le best.now.unit row.now.unit else false) }
{
    not_past(target, row) && best.unit <= row.unit
}

// Whether one of the rows is at the unit.
fn is_among(unit: u32, rows: &[Checkpoint]) -> bool
    ensures { result ≡ list_any (λ (w : Checkpoint). w.unit == unit) rows.now }
{
    rows.iter().any(|row| row.unit == unit)
}

impl Checkpoints {
    // The table with one row, the start of a run.
    pub fn first(start: Checkpoint) -> Checkpoints
        ensures { (K : Kind) → kept K result ≡ held K start ∷ [] }
    {
        let mut rows = ArrayVec::new();
        rows.push(start);
        Checkpoints { rows }
    }

    // How many units are kept.
    pub fn len(&self) -> usize
        ensures all { (K : Kind) → result ≡ length (kept K self.now) }
        ensures few { result ≤ 8 }
    {
        self.rows.len()
    }

    // Whether the unit is kept.
    pub fn holds(&self, unit: u32) -> bool
        ensures { (K : Kind) → result ≡ has_unit unit (kept K self.now) }
    {
        is_among(unit, self.rows.as_slice())
    }

    // One row more, where there is room; a full table stays as it is.
    pub fn add(&mut self, row: Checkpoint) -> Option<()>
        ensures room { (K : Kind) → is_some result ≡ nat_lt (length (kept K self.old)) 8 }
        ensures more { (K : Kind) → kept K self.new ≡ with_position (kept K self.old) (held K row) }
        ensures left { result ≡ None → self.new ≡ self.old }
    {
        self.rows.try_push(row).ok()
    }

    // The latest kept unit that is not past the target.
    pub fn nearest<L: Landmark>(&self, target: Target<L>) -> Checkpoint
        ensures { (K : Kind) (d : Position) → held K result ≡ nearest L.Landmark.marking (aim L.Landmark.meaning target) (first_or d (kept K self.now)) (kept K self.now) }
    {
        let rows = self.rows.as_slice();
        let mut best = &rows[0];
        for row in rows {
            if is_closer(target, best, row) {
                best = row;
            }
        }
        *best
    }
}
