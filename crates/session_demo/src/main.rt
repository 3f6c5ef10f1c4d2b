// Drives sessions on both guests with both kinds of landmark, and prints each call with its answer.
#![tactic(auto)]

mod guests;
mod tell;

use guests::{LAMP_6502, LAMP_RV32I, mos6502, rv32i};
use landmark::{Branch, Code, Count, Landmark};
use machine::{Event, Machine};
use mos6502::Mos6502;
use rv32i::Rv32i;
use session::{Recording, Replaying};
use tell::{back, forward, interrupt, keep, run, seek, show};

// Landmarks of the 6502's run: of units 5 and 4, and one that no moment has.
#[derive(Clone, Copy)]
struct Nine {
    fifth: Code,
    fourth: Code,
    none: Code,
}

// Five units, a switch, and its handler of three.
fn record_nine<L: Landmark>(rt: &HostRuntime) -> anyhow::Result<Replaying<Mos6502, L>> {
    println!(rt; "record")?;
    let mut session = Recording::<Mos6502, L>::record(mos6502()?);
    show(rt, &session, &mut [0; Mos6502::IMAGE_BYTES], LAMP_6502)?;
    run(rt, &mut session, 0)?;
    run(rt, &mut session, 5)?;
    interrupt(rt, &mut session, Event::Switch(5))?;
    run(rt, &mut session, 3)?;
    println!(rt; "finish")?;
    Ok(session.finish())
}

// A switch before the firmware lets it in.
fn switch_too_early<L: Landmark>(rt: &HostRuntime) -> anyhow::Result<()> {
    println!(rt; "record")?;
    let mut session = Recording::<Mos6502, L>::record(mos6502()?);
    run(rt, &mut session, 2)?;
    interrupt(rt, &mut session, Event::Switch(5))
}

// To landmarks, back and forth, and out of the run.
fn look_round<L: Landmark>(
    rt: &HostRuntime,
    session: &mut Replaying<Mos6502, L>,
    codes: Nine,
) -> anyhow::Result<()> {
    seek(rt, session, codes.fifth)?;
    back(rt, session, 1)?;
    forward(rt, session, 2)?;
    seek(rt, session, codes.none)?;
    seek(rt, session, codes.fourth)?;
    show(rt, session, &mut [0; Mos6502::IMAGE_BYTES], LAMP_6502)?;
    show(rt, session, &mut [0; 4105], LAMP_6502)?;
    back(rt, session, 5)?;
    forward(rt, session, 6)?;
    keep(rt, session)?;
    keep(rt, session)?;
    forward(rt, session, 5)?;
    back(rt, session, 3)
}

// From the end of what was recorded on, with a second switch.
fn go_on<L: Landmark>(rt: &HostRuntime, session: Replaying<Mos6502, L>) -> anyhow::Result<()> {
    println!(rt; "resume")?;
    let mut session = session.resume();
    show(rt, &session, &mut [0; Mos6502::IMAGE_BYTES], LAMP_6502)?;
    run(rt, &mut session, 2)?;
    interrupt(rt, &mut session, Event::Switch(6))?;
    interrupt(rt, &mut session, Event::Switch(7))?;
    run(rt, &mut session, 3)?;
    println!(rt; "finish")?;
    let mut session = session.finish();
    show(rt, &session, &mut [0; Mos6502::IMAGE_BYTES], LAMP_6502)?;
    for _ in 0..7 {
        back(rt, &mut session, 1)?;
        keep(rt, &mut session)?;
    }
    forward(rt, &mut session, 4)
}

fn switch_run<L: Landmark>(rt: &HostRuntime, codes: Nine) -> anyhow::Result<()> {
    switch_too_early::<L>(rt)?;
    let mut session = record_nine::<L>(rt)?;
    look_round::<L>(rt, &mut session, codes)?;
    go_on::<L>(rt, session)
}

// A timer and its handler, then a switch that leads to an undefined word.
fn timer_run<L: Landmark>(rt: &HostRuntime, seventh: Code, none: Code) -> anyhow::Result<()> {
    println!(rt; "record")?;
    let mut session = Recording::<Rv32i, L>::record(rv32i()?);
    run(rt, &mut session, 4)?;
    interrupt(rt, &mut session, Event::Timer)?;
    interrupt(rt, &mut session, Event::Timer)?;
    run(rt, &mut session, 3)?;
    keep(rt, &mut session)?;
    run(rt, &mut session, 1)?;
    interrupt(rt, &mut session, Event::Switch(7))?;
    run(rt, &mut session, 5)?;
    run(rt, &mut session, 1)?;
    interrupt(rt, &mut session, Event::Timer)?;
    println!(rt; "finish")?;
    let mut session = session.finish();
    seek(rt, &mut session, seventh)?;
    show(rt, &session, &mut [0; Rv32i::IMAGE_BYTES], LAMP_RV32I)?;
    forward(rt, &mut session, 4)?;
    back(rt, &mut session, 2)?;
    show(rt, &session, &mut [0; Rv32i::IMAGE_BYTES], LAMP_RV32I)?;
    seek(rt, &mut session, none)?;
    println!(rt; "resume")?;
    let mut session = session.resume();
    run(rt, &mut session, 1)
}

fn code(major: u32, minor: u32) -> Code {
    Code { major, minor }
}

fn main(rt: HostRuntime) -> anyhow::Result<()> {
    println!(rt; "guest 1 mark 2")?;
    let branch = Nine {
        fifth: code(1, 63494),
        fourth: code(0, 63495),
        none: code(1, 63495),
    };
    switch_run::<Branch>(&rt, branch)?;
    println!(rt; "guest 1 mark 1")?;
    let count = Nine {
        fifth: code(0, 5),
        fourth: code(0, 4),
        none: code(0, 10),
    };
    switch_run::<Count>(&rt, count)?;
    println!(rt; "guest 2 mark 2")?;
    timer_run::<Branch>(&rt, code(2, 24), code(3, 16))?;
    println!(rt; "guest 2 mark 1")?;
    timer_run::<Count>(&rt, code(0, 7), code(0, 12))
}
