// Runs a table of cases on the 6502 guest, through the machine interface, and prints what each leaves. A line of the table is a name, settings
// such as A=7F or 0300=A901, and actions: step, timer, switch:05.
#![tactic(auto)]

ghost use Rattle.std.specs.Prelude.{◌<◌, IfSome};

use anyhow::Context;
use machine::{Event, Machine};
use mos6502::Mos6502;
use std::io;

// The names of the first ten bytes of an image; the place has two.
static NAMES: [&str; 10] = ["A", "X", "Y", "S", "P", "PC", "", "STOP", "LAMP", "SW"];

// What a case does to the machine. The cases of RV32I do the same, spelled and told otherwise: a type for both would be a library's,
// with a contract and an edit for two lines.
enum Action {
    Step,
    Take(Event),
}

// The address of the first byte of ROM. Those of RAM and of ROM, 2,048 each, differ in its bits alone.
const ROM: u16 = 0xF800;

// What memory holds where a case does not set it.
fn pattern(at: u16) -> u8 {
    ((at % 256 * 7 + at / 256 * 13 + 3) % 256) as u8
}

fn background() -> [u8; Mos6502::IMAGE_BYTES] {
    let mut image = [0; Mos6502::IMAGE_BYTES];
    image[4] = 0x20;
    let (ram, rom) = image[10..].split_at_mut(2048);
    for (i, (low, high)) in (0..0x800).zip(ram.iter_mut().zip(rom)) {
        *low = pattern(i);
        *high = pattern(ROM | i);
    }
    image
}

// Where in the image a register or an address stands.
fn offset(key: &str) -> Option<usize>
    ensures { IfSome result (λ k. k < 4106) }
{
    if let Some(i) = NAMES.iter().position(|name| *name == key) {
        return Some(i);
    }
    match u16::from_str_radix(key, 16) {
        Ok(at @ 0..=0x7FF) => Some(10 + usize::from(at)),
        Ok(at @ 0xF800..=0xFFFF) => Some(2058 + usize::from(at - 0xF800)),
        _ => None,
    }
}

// Upper case alone, where the cases of RV32I have lower case alone: the library's digits are of either.
fn digit(byte: u8) -> Option<u8>
    ensures { IfSome result (λ d. d < 16) }
{
    match byte {
        b'0'..=b'9' => Some(byte - b'0'),
        b'A'..=b'F' => Some(byte - b'A' + 10),
        _ => None,
    }
}

// Puts bytes into the image, from a register or an address on, digit by digit.
fn set(image: &mut [u8; Mos6502::IMAGE_BYTES], key: &str, digits: &str) -> Option<()> {
    let start = offset(key)?;
    for (k, byte) in digits.bytes().enumerate() {
        let cell = image.get_mut(start + k / 2)?;
        *cell = *cell % 16 * 16 + digit(byte)?;
    }
    Some(())
}

// Puts the settings of a case into the image.
fn setup(image: &mut [u8; Mos6502::IMAGE_BYTES], words: &str) -> Option<()> {
    for word in words.split_whitespace() {
        if let Some((key, digits)) = word.split_once('=') {
            set(image, key, digits)?;
        }
    }
    Some(())
}

// An action of a word; a setting is none. It is no `FromStr`, which would declare an error type to drop it at once.
fn parse_action(word: &str) -> Option<Action> {
    match word {
        "step" => Some(Action::Step),
        "timer" => Some(Action::Take(Event::Timer)),
        _ => {
            let byte = u8::from_str_radix(word.strip_prefix("switch:")?, 16).ok()?;
            Some(Action::Take(Event::Switch(byte)))
        }
    }
}

fn act(machine: &mut Mos6502, action: Action) -> Option<bool> {
    match action {
        Action::Step => machine.step(),
        Action::Take(event) => machine.take(event),
    }
}

// Onward, a transfer, or no unit at all. The cases of RV32I have an `n` for the first.
fn letter(report: Option<bool>) -> char {
    match report {
        Some(false) => 'o',
        Some(true) => 't',
        None => '-',
    }
}

// Each register, by its name.
fn show_registers(rt: &HostRuntime, image: &[u8; Mos6502::IMAGE_BYTES]) -> io::Result<()> {
    for (name, byte) in NAMES.iter().zip(image) {
        if !name.is_empty() {
            print!(rt; " {name}=")?;
        }
        print!(rt; "{byte:02X}")?;
    }
    Ok(())
}

// Each byte that changed, at its address: those of RAM, or those of ROM.
fn show_changes(rt: &HostRuntime, base: u16, before: &[u8], after: &[u8]) -> io::Result<()> {
    for (i, (old, new)) in (0..0x800).zip(before.iter().zip(after)) {
        if new != old {
            print!(rt; " {:04X}={new:02X}", base | i)?;
        }
    }
    Ok(())
}

// Carries out the actions of a case, with a letter for each.
fn act_all(rt: &HostRuntime, machine: &mut Mos6502, words: &str) -> io::Result<()> {
    for word in words.split_whitespace() {
        if let Some(action) = parse_action(word) {
            let report = act(machine, action);
            print!(rt; "{}", letter(report))?;
        }
    }
    Ok(())
}

fn run(rt: &HostRuntime, words: &str) -> anyhow::Result<()> {
    let mut before = background();
    setup(&mut before, words).context("no such setting")?;
    let mut machine = Mos6502::fresh();
    machine.load(&before).ok().context("not lawful")?;
    act_all(rt, &mut machine, words)?;
    let mut after = [0; Mos6502::IMAGE_BYTES];
    machine.save(&mut after)?;
    show_registers(rt, &after)?;
    show_changes(rt, 0, &before[10..2058], &after[10..2058])?;
    show_changes(rt, ROM, &before[2058..], &after[2058..])?;
    println!(rt; "")?;
    Ok(())
}

fn main(rt: HostRuntime) -> anyhow::Result<()> {
    for line in rt.lines(rt.alloc()) {
        if let Some((name, words)) = line?.as_str().split_once(' ') {
            print!(rt; "{name} ")?;
            run(&rt, words)?;
        }
    }
    Ok(())
}
