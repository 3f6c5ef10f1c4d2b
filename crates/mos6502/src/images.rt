// A processor as bytes, and back.
ghost use Rattle.std.specs.Prelude.{◌≡◌, length, if◌then◌else◌, Ok, Err};
ghost use Rattle.machine.specs.Faults.{load_fault, save_answer, saved};
ghost use Rattle.mos6502.specs.Images.{head_of, image_of, cpu_of, lawful_image};
ghost use Rattle.mos6502.specs.Guest.{mos6502};

use machine::GuestFault;
use mos6502_core::cpu::Cpu;
use mos6502_parts::flags::Flags;
use mos6502_parts::memory::Memory;

// Where P and the stopped byte stand in an image, in the 16 bits that a fault has (a cast makes an index of each: a call would be a step more in the proof), and how long it is.
const P: u16 = 4;

const STOPPED: u16 = 7;

pub(crate) const LENGTH: usize = 4106;

fn processor(image: &[u8; LENGTH]) -> Cpu
    ensures { result ≡ cpu_of image.now }
{
    let [a, x, y, s, p, high, low, stopped, lamp, switch, ..] = *image;
    Cpu {
        a,
        x,
        y,
        s,
        p: Flags::from(p),
        place: u16::from_be_bytes([high, low]),
        stopped: stopped == 1,
        memory: Memory {
            lamp,
            switch,
            ram: image[10..2058].try_into().unwrap(),
            rom: image[2058..].try_into().unwrap(),
        },
    }
}

// The processor that an image holds, unless the image is not lawful.
pub fn load_image(bytes: &[u8]) -> Result<Cpu, GuestFault>
    ensures { result ≡ (if lawful_image bytes.now then Ok (cpu_of bytes.now) else Err (load_fault mos6502 bytes.now)) }
{
    let image: &[u8; LENGTH] = bytes.as_array().ok_or(GuestFault::WrongLength)?;
    if image[P as usize] / 16 % 4 != 2 {
        return Err(GuestFault::Unlawful(P));
    }
    if image[STOPPED as usize] >= 2 {
        return Err(GuestFault::Unlawful(STOPPED));
    }
    Ok(processor(image))
}

fn head(cpu: &Cpu) -> [u8; 10]
    ensures { result ≡ head_of cpu.now }
{
    let [high, low] = cpu.place.to_be_bytes();
    [
        cpu.a,
        cpu.x,
        cpu.y,
        cpu.s,
        u8::from(cpu.p),
        high,
        low,
        u8::from(cpu.stopped),
        cpu.memory.lamp,
        cpu.memory.switch,
    ]
}

// Writes the image of a processor.
fn write(cpu: &Cpu, image: &mut [u8; LENGTH])
    ensures written { image.new ≡ image_of cpu.now }
    ensures whole { length (image_of cpu.now) ≡ 4106 }
{
    image[..10].copy_from_slice(&head(cpu));
    image[10..2058].copy_from_slice(&cpu.memory.ram);
    image[2058..].copy_from_slice(&cpu.memory.rom);
}

// Puts the image at the front of the buffer, unless the buffer is too short, and answers its length.
pub fn save_image(cpu: &Cpu, buffer: &mut [u8]) -> Result<usize, GuestFault>
    ensures answer { result ≡ save_answer mos6502 buffer.old }
    ensures memory { buffer.new ≡ saved mos6502 (image_of cpu.now) buffer.old }
{
    let image = buffer
        .first_chunk_mut()
        .ok_or(GuestFault::ShortBuffer(LENGTH))?;
    write(cpu, image);
    Ok(LENGTH)
}
