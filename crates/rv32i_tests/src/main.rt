// Runs a table of cases on the RV32I guest, one to a line, and prints what each did. generate.py writes the table and what is expected.
//
// A case is a name, the actions joined by commas (see `parse_action`), and the parts of the image that differ from the blank one (see `Case::put`).
// Printed are the name, for each action `-` (no unit), `n` (no transfer) or `t` (transfer), the place, `stopped` or `running`, `ready` or
// `busy`, the lamp, and each run of bytes that the saved image and what lies behind it differ in from the image loaded.
#![tactic(auto)]

mod cases;

ghost use Rattle.std.specs.Prelude.{◌≡◌};
ghost use Rattle.rv32i_tests.specs.Cases.{unit_of, letter_of};

use anyhow::Context;
use cases::{Action, Case, FILL, SPACE};
use machine::{Event, Machine};
use std::fmt::Write;
use std::io::Read;

// The cases of the 6502 have an `o` for the second.
fn letter(unit: Option<bool>) -> char
    ensures { result ≡ letter_of unit }
{
    match unit {
        None => '-',
        Some(false) => 'n',
        Some(true) => 't',
    }
}

// Does an action and tells what it was.
fn perform<M: Machine>(guest: &mut M, action: Action) -> char
    ensures { result ≡ letter_of (unit_of M.Machine.kind action (M.Machine.image guest.old)) }
{
    match action {
        Action::Step => letter(guest.step()),
        Action::Take(event) => letter(guest.take(event)),
    }
}

// The runs of bytes in which the two differ.
fn differences(before: &[u8; SPACE], after: &[u8; SPACE], line: &mut String) -> anyhow::Result<()> {
    let mut same = true;
    for (i, (old, new)) in before.iter().zip(after).enumerate() {
        if old == new {
            same = true;
            continue;
        }
        if same {
            write!(line, " {i:x}:")?;
        }
        write!(line, "{new:02x}")?;
        same = false;
    }
    Ok(())
}

// What can be seen of the guest, and its image.
fn look<M: Machine>(guest: &M, case: &Case, line: &mut String) -> anyhow::Result<()> {
    let place = guest.place();
    let lamp = guest.lamp();
    let state = if guest.stopped() {
        "stopped"
    } else {
        "running"
    };
    let events = if guest.ready(Event::Timer) {
        "ready"
    } else {
        "busy"
    };
    write!(line, " {place:08x} {state} {events} {lamp:02x}")?;
    let mut after = [FILL; SPACE];
    match guest.save(&mut after[0..case.room]) {
        Ok(_) => differences(&case.bytes, &after, line),
        Err(fault) => {
            write!(line, " {fault}")?;
            differences(&[FILL; SPACE], &after, line)
        }
    }
}

fn run<M: Machine>(
    guest: &mut M,
    case: &Case,
    actions: &str,
    line: &mut String,
) -> anyhow::Result<()> {
    if let Err(fault) = guest.load(&case.bytes[0..case.length]) {
        write!(line, " {fault}")?;
        return Ok(());
    }
    line.push(' ')?;
    for text in actions.split(',') {
        let action = cases::parse_action(text).context("no such action")?;
        line.push(perform(guest, action))?;
    }
    look(guest, case, line)
}

// The answer to one line of the table.
fn answer<M: Machine>(guest: &mut M, text: &str, line: &mut String) -> anyhow::Result<()> {
    let mut parts = text.split(' ');
    let name = parts.next().context("no actions")?;
    let actions = parts.next().context("no actions")?;
    line.push_str(name)?;
    let mut case = Case::new();
    for part in parts {
        case.put(part).context("no such part")?;
    }
    run(guest, &case, actions, line)
}

fn main(rt: HostRuntime) -> anyhow::Result<()> {
    let mut table = String::new(rt.alloc());
    rt.stdin().read_to_string(&mut table)?;
    let mut guest = <rv32i::Rv32i as Machine>::fresh();
    for text in table.lines() {
        let mut line = String::new(rt.alloc());
        answer(&mut guest, text, &mut line)?;
        println!(rt; "{line}")?;
    }
    Ok(())
}
