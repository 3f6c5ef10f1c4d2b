// Prints what is proved of every recording, one line for each theorem. Each line comes after the call whose contract is that theorem, so a
// line is printed only where its theorem is proved.
#![tactic(auto)]

use std::io;

// Theorems about histories of calls.
fn of_histories(rt: &HostRuntime) -> io::Result<()> {
    runs::recordings_keep_the_law();
    println!(rt;
        "the law of recordings: after any history of calls, show, trail, seek, write and load are right"
    )?;
    runs::histories_are_fixed();
    println!(rt; "a machine's image and the calls alone fix every answer and the session")?;
    runs::calls_say_so();
    println!(rt; "the refusals of the calls, on examples")
}

// Theorems about runs.
fn of_runs(rt: &HostRuntime) -> io::Result<()> {
    runs::journals_replay_their_runs();
    println!(rt; "a journal replays its run, from any moment")?;
    runs::landmarks_are_told();
    println!(rt; "landmark u is (0, u), or the transfers so far with the place")?;
    runs::trails_are_exact();
    println!(rt; "the lamp changes of a run are listed by one list alone")?;
    runs::laws_are_kept();
    println!(rt; "some kinds of machine and landmark keep the laws")
}

// Theorems about files.
fn of_files(rt: &HostRuntime) -> io::Result<()> {
    runs::loads_are_decided();
    println!(rt; "a file loads exactly if it is the file of a run")?;
    runs::forms_are_checked();
    println!(rt;
        "checks 1 to 8 pass a file exactly if it spells an image, a journal and a last landmark"
    )?;
    runs::faults_are_first();
    println!(rt; "refusals 1 to 8 name the first rule that a file breaks, and the first place")?;
    runs::breaks_are_found();
    println!(rt; "refusal 9 is given exactly where the run that a file tells breaks off")?;
    runs::checks_say_so();
    println!(rt; "the refusals of the checks, on examples")
}

fn main(rt: HostRuntime) -> io::Result<()> {
    of_histories(&rt)?;
    of_runs(&rt)?;
    of_files(&rt)
}
