// The theory of runs: what a run, its moments, its journal, its lamp changes and its recording are, what each call of a session does, and the
// law of recordings. The definitions stand in specs/. Each function below has one theorem about them for its contract: it does nothing, and
// that it is proved says that the theorem holds.
#![tactic(auto)]

ghost use Rattle.runs.specs.Examples.{ChecksSaySo, CallsSaySo};
ghost use Rattle.runs.specs.Landmarks.{EveryLandmarkIsTold};
ghost use Rattle.runs.specs.Law.{EveryKindKeepsTheLaw};
ghost use Rattle.runs.specs.Samples.{LawsAreKept};
ghost use Rattle.runs.specs.Theorems.{EveryJournalReplays, EveryTrailIsExact, EveryLoadIsDecided, EveryFormIsChecked, EveryFaultIsFirst, EveryBreakIsFound, EveryHistoryIsFixed};

use landmark::Code;
use machine::Event;

// One entry of a journal: an event, with the landmark of the moment before it is taken.
#[derive(Clone, Copy)]
pub struct Entry {
    pub code: Code,
    pub event: Event,
}

// One entry of a list of lamp changes: a unit after which the lamp byte differs from before, that unit's landmark, and the new lamp byte.
#[derive(Clone, Copy)]
pub struct LampChange {
    pub unit: u32,
    pub code: Code,
    pub lamp: u8,
}

// The law of recordings holds for every kind of machine and of landmark that keeps its laws, over every history of calls.
pub fn recordings_keep_the_law()
    ensures { EveryKindKeepsTheLaw }
{}

// A replay by the journal reproduces the run, from any of its moments.
pub fn journals_replay_their_runs()
    ensures { EveryJournalReplays }
{}

// A run's lamp changes up to a moment are listed by one list, and by no other.
pub fn trails_are_exact()
    ensures { EveryTrailIsExact }
{}

// The landmarks of a run are what the count kind and the branch kind say.
pub fn landmarks_are_told()
    ensures { EveryLandmarkIsTold }
{}

// The checks of a load pass a file exactly where it is the file of a run, and give that run.
pub fn loads_are_decided()
    ensures { EveryLoadIsDecided }
{}

// The first eight checks pass a file exactly where it spells a start image, a journal and a last landmark.
pub fn forms_are_checked()
    ensures { EveryFormIsChecked }
{}

// A refusal by one of the first eight checks names the first sentence that the file breaks, and the first place where it does.
pub fn faults_are_first()
    ensures { EveryFaultIsFirst }
{}

// The ninth check refuses a file exactly where the run that it tells breaks off.
pub fn breaks_are_found()
    ensures { EveryBreakIsFound }
{}

// The machine's image and the calls alone fix every answer, and the session that the calls lead to.
pub fn histories_are_fixed()
    ensures { EveryHistoryIsFixed }
{}

// Some kinds keep the laws, odd ones among them, so nothing above speaks of nothing.
pub fn laws_are_kept()
    ensures { LawsAreKept }
{}

// What the checks of a load say of some small files.
pub fn checks_say_so()
    ensures { ChecksSaySo }
{}

// What the calls answer in some small sessions.
pub fn calls_say_so()
    ensures { CallsSaySo }
{}
