// A program that lights the lamp and waits in a loop, and a switch whose handler puts the switch byte into the lamp: nine units, step by step.
#![tactic(auto)]

use machine::{Event, Machine};
use mos6502::Mos6502;

// Lights the lamp, lets the switch in, and goes round a loop at F806h. `session_demo` has the same bytes: a crate for both would promise them again.
static PROGRAM: [u8; 10] = [0xA9, 0x01, 0x8D, 0x00, 0xD0, 0x58, 0xEA, 0x4C, 0x06, 0xF8];

// At F820h: puts the switch byte into the lamp.
static HANDLER: [u8; 7] = [0xAD, 0x01, 0xD0, 0x8D, 0x00, 0xD0, 0x40];

// The units: an event that is taken, or else an instruction.
const EVENTS: [Option<Event>; 9] = [
    None,
    None,
    None,
    None,
    None,
    Some(Event::Switch(5)),
    None,
    None,
    None,
];

fn start_image() -> [u8; Mos6502::IMAGE_BYTES] {
    let mut image = [0; Mos6502::IMAGE_BYTES];
    image[3] = 0xFF;
    image[4] = 0x24;
    image[5] = 0xF8;
    image[2058..2068].copy_from_slice(&PROGRAM);
    image[2090..2097].copy_from_slice(&HANDLER);
    // the switch's vector, FFFEh
    image[4104] = 0x20;
    image[4105] = 0xF8;
    image
}

// The report in words, where the table of cases has one letter for each.
fn told(report: Option<bool>) -> &'static str {
    match report {
        Some(true) => "transfer",
        Some(false) => "onward",
        None => "no unit",
    }
}

fn show(rt: &HostRuntime, machine: &Mos6502, report: &str) -> anyhow::Result<()> {
    let mut image = [0; Mos6502::IMAGE_BYTES];
    machine.save(&mut image)?;
    let place = machine.place();
    let lamp = machine.lamp();
    let [a, x, y, s, p, ..] = image;
    // what a handler comes back to: P, and the place, low byte first
    let [flags, low, high] = [image[519], image[520], image[521]];
    print!(rt;
        "place {place:04X} A {a:02X} X {x:02X} Y {y:02X} S {s:02X} P {p:02X} lamp {lamp:02X}"
    )?;
    println!(rt; " 01FD {flags:02X} {low:02X} {high:02X} {report}")?;
    Ok(())
}

fn main(rt: HostRuntime) -> anyhow::Result<()> {
    let mut machine = Mos6502::fresh();
    machine.load(&start_image())?;
    show(&rt, &machine, "start")?;
    for event in EVENTS {
        let report = match event {
            Some(event) => machine.take(event),
            None => machine.step(),
        };
        show(&rt, &machine, told(report))?;
    }
    Ok(())
}
