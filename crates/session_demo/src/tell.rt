// One line for each call, with its answer or its refusal.

use faults::{Refusal, SessionFault};
use landmark::{Code, Landmark};
use machine::{Event, Machine};
use session::{Recording, Replaying, Session, Shown, Stage};
use std::fmt;

fn tell<T: fmt::Display + Drop>(
    rt: &HostRuntime,
    call: impl fmt::Display + Drop,
    answer: Result<T, SessionFault>,
) -> anyhow::Result<()> {
    match answer {
        Ok(told) => println!(rt; "{call}: {told}")?,
        Err(fault) => println!(rt; "{call}: {}", Refusal::from(fault))?,
    }
    Ok(())
}

pub(crate) fn run<M: Machine, L: Landmark>(
    rt: &HostRuntime,
    session: &mut Recording<M, L>,
    most: u32,
) -> anyhow::Result<()> {
    tell(rt, format_args!("run {most}"), session.run(most))
}

pub(crate) fn interrupt<M: Machine, L: Landmark>(
    rt: &HostRuntime,
    session: &mut Recording<M, L>,
    event: Event,
) -> anyhow::Result<()> {
    let answer = session.interrupt(event);
    match event {
        Event::Timer => tell(rt, "interrupt Timer", answer),
        Event::Switch(byte) => tell(rt, format_args!("interrupt Switch {byte:02X}"), answer),
    }
}

pub(crate) fn seek<M: Machine, L: Landmark>(
    rt: &HostRuntime,
    session: &mut Replaying<M, L>,
    code: Code,
) -> anyhow::Result<()> {
    tell(rt, format_args!("seek {code}"), session.seek(code))
}

pub(crate) fn back<M: Machine, L: Landmark>(
    rt: &HostRuntime,
    session: &mut Replaying<M, L>,
    units: u32,
) -> anyhow::Result<()> {
    tell(rt, format_args!("back {units}"), session.back(units))
}

pub(crate) fn forward<M: Machine, L: Landmark>(
    rt: &HostRuntime,
    session: &mut Replaying<M, L>,
    units: u32,
) -> anyhow::Result<()> {
    tell(rt, format_args!("forward {units}"), session.forward(units))
}

pub(crate) fn keep<M: Machine, L: Landmark, S: Stage>(
    rt: &HostRuntime,
    session: &mut Session<M, L, S>,
) -> anyhow::Result<()> {
    tell(rt, "keep", session.keep())
}

// A moment that was shown, with its lamp.
#[derive(Clone, Copy)]
struct Seen {
    shown: Shown,
    lamp: u8,
}

impl fmt::Display for Seen {
    fn fmt<W: fmt::Write>(&self, f: &mut fmt::Formatter<W>) -> fmt::Result {
        let Shown { unit, code } = self.shown;
        write!(f, "unit {unit} at {code} lamp {:02X}", self.lamp)
    }
}

// The image goes to the buffer; the lamp is its byte at an offset that each guest has its own.
pub(crate) fn show<M: Machine, L: Landmark, S: Stage>(
    rt: &HostRuntime,
    session: &Session<M, L, S>,
    buffer: &mut [u8],
    lamp_at: usize,
) -> anyhow::Result<()> {
    let answer = session.show(buffer);
    let lamp = buffer.get(lamp_at).copied().unwrap_or(0);
    tell(rt, "show", answer.map(|shown| Seen { shown, lamp }))
}
