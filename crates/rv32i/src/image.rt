// From a core to its image and back.

ghost use Rattle.std.specs.Prelude.{◌≡◌, ℕ, ◌^◌, ◌<◌, ◌==◌, true, false, length, slice_index, MatchOption, MatchResult};
ghost use Rattle.std.specs.List.{flat_map};
ghost use Rattle.machine.specs.Faults.{load_fault};
ghost use Rattle.machine.specs.declared.GuestFault.TheVariants.{Unlawful};
ghost use Rattle.rv32i.specs.Images.{high_first, words, word_in, words_in, image_of, core_of, aligned, flag, lawful};
ghost use Rattle.rv32i.specs.Parts.{PartsIn};
ghost use Rattle.rv32i.specs.Guest.{rv32i};

use machine::GuestFault;
use rv32i_core::bus::Bus;
use rv32i_core::registers::Registers;
use rv32i_core::state::State;
use std::array;

pub(crate) const LENGTH: usize = 4232;

// Where an image may offend.
const PLACE_AT: u16 = 124;

const SAVED_AT: u16 = 128;

const ENABLED_AT: u16 = 132;

const STOPPED_AT: u16 = 133;

// Each word as its bytes, the high one first. The array's own `map` would move each word through a slot, in twice the time.
fn word_bytes(x: &[u32; 31]) -> [[u8; 4]; 31]
    ensures { flat_map (λ bytes. bytes) result ≡ words x.now }
{
    array::from_fn(
        |i|
            requires { i < 31 }
            ensures { result ≡ high_first (slice_index x.entry.now i) }
        { x[i].to_be_bytes() },
    )
}

// Writes the image of a core.
pub(crate) fn write(state: &State, image: &mut [u8; LENGTH])
    ensures { image.new ≡ image_of state.now }
{
    let (registers, rest) = image.split_at_mut(124);
    let (place, rest) = rest.split_at_mut(4);
    let (saved, rest) = rest.split_at_mut(4);
    let (flags, rest) = rest.split_at_mut(4);
    let (rom, ram) = rest.split_at_mut(2048);
    registers.copy_from_slice(word_bytes(&state.registers.x).as_flattened());
    place.copy_from_slice(&state.place.to_be_bytes());
    saved.copy_from_slice(&state.saved.to_be_bytes());
    flags.copy_from_slice(&[
        u8::from(state.enabled),
        u8::from(state.stopped),
        state.bus.lamp,
        state.bus.switch,
    ]);
    rom.copy_from_slice(&state.bus.rom);
    ram.copy_from_slice(&state.bus.ram);
}

// The bytes of an image, part by part.
#[derive(Clone, Copy)]
struct Parts<'a> {
    registers: &'a [u8; 124],
    place: [u8; 4],
    saved: [u8; 4],
    enabled: u8,
    stopped: u8,
    lamp: u8,
    switch: u8,
    rom: &'a [u8; 2048],
    ram: &'a [u8; 2048],
}

impl<'a> Parts<'a> {
    // None unless there are as many bytes as an image has.
    fn of(bytes: &'a [u8]) -> Option<Parts<'a>>
        ensures { MatchOption result (length bytes.now ≡ 4232 → ⊥) (λ p. PartsIn bytes.now p) }
    {
        let (registers, rest) = bytes.split_first_chunk()?;
        let (&place, rest) = rest.split_first_chunk()?;
        let (&saved, rest) = rest.split_first_chunk()?;
        let (&[enabled, stopped, lamp, switch], rest) = rest.split_first_chunk::<4>()?;
        let (rom, rest) = rest.split_first_chunk()?;
        let ram = rest.as_array()?;
        Some(Parts {
            registers,
            place,
            saved,
            enabled,
            stopped,
            lamp,
            switch,
            rom,
            ram,
        })
    }
}

fn read_words(bytes: &[u8; 124]) -> [u32; 31]
    ensures { result ≡ words_in 31 bytes.now }
{
    let (chunks, _) = bytes.as_chunks();
    let words: &[[u8; 4]; 31] = chunks.as_array().unwrap();
    array::from_fn(|i| u32::from_be_bytes(words[i]))
}

// A place, which offends at an offset unless it is a multiple of 4.
fn read_place(bytes: [u8; 4], at: u16) -> Result<u32, GuestFault>
    ensures { MatchResult result (λ p. (p ≡ word_in bytes 0) × (aligned (word_in bytes 0) ≡ true)) (λ f. (f ≡ Unlawful at) × (aligned (word_in bytes 0) ≡ false)) }
{
    let place = u32::from_be_bytes(bytes);
    if place % 4 != 0 {
        return Err(GuestFault::Unlawful(at));
    }
    Ok(place)
}

// A flag, which offends at an offset unless it is 0 or 1.
fn read_flag(byte: u8, at: u16) -> Result<bool, GuestFault>
    ensures { MatchResult result (λ b. (b ≡ (byte == 1)) × (flag byte ≡ true)) (λ f. (f ≡ Unlawful at) × (flag byte ≡ false)) }
{
    match byte {
        0 => Ok(false),
        1 => Ok(true),
        _ => Err(GuestFault::Unlawful(at)),
    }
}

// The core of an image; what is no lawful image is refused by the first thing wrong with it.
pub(crate) fn read(bytes: &[u8]) -> Result<State, GuestFault>
    ensures { MatchResult result (λ s. (lawful bytes.now ≡ true) × (s ≡ core_of bytes.now)) (λ f. (lawful bytes.now ≡ false) × (f ≡ load_fault rv32i bytes.now)) }
{
    let parts = Parts::of(bytes).ok_or(GuestFault::WrongLength)?;
    Ok(State {
        place: read_place(parts.place, PLACE_AT)?,
        saved: read_place(parts.saved, SAVED_AT)?,
        enabled: read_flag(parts.enabled, ENABLED_AT)?,
        stopped: read_flag(parts.stopped, STOPPED_AT)?,
        registers: Registers {
            x: read_words(parts.registers),
        },
        bus: Bus {
            rom: *parts.rom,
            ram: *parts.ram,
            lamp: parts.lamp,
            switch: parts.switch,
        },
    })
}
