// The two guests with their firmware.

use machine::Machine;
use mos6502::Mos6502;
use rv32i::Rv32i;

// Where the lamp byte is in an image of each.
pub(crate) const LAMP_6502: usize = 8;

pub(crate) const LAMP_RV32I: usize = 134;

// The program that `mos6502_worked` shows unit by unit, written out again: a crate for both would promise the same bytes again in a contract.
// At F800h: lights the lamp, lets the switch in, and goes round a loop at F806h.
static PROGRAM: [u8; 10] = [0xA9, 0x01, 0x8D, 0x00, 0xD0, 0x58, 0xEA, 0x4C, 0x06, 0xF8];

// At F820h: puts the switch byte into the lamp.
static HANDLER: [u8; 7] = [0xAD, 0x01, 0xD0, 0x8D, 0x00, 0xD0, 0x40];

// At 0000h: ADDI x1, x0, 1; LUI x2, 2; SB x1, 0(x2), which lights the lamp; a jump to itself at 0Ch. At 10h, the timer's handler: ADDI x1, x1,
// 1; SB x1, 0(x2); the return word. At 20h, where a switch leads, is the undefined word 00000000h.
static WORDS: [u8; 28] = [
    0x93, 0x00, 0x10, 0x00, 0x37, 0x21, 0x00, 0x00, 0x23, 0x00, 0x11, 0x00, 0x6F, 0x00, 0x00, 0x00,
    0x93, 0x80, 0x10, 0x00, 0x23, 0x00, 0x11, 0x00, 0x73, 0x00, 0x20, 0x30,
];

// A machine that has loaded the image.
fn loaded<M: Machine>(image: &[u8]) -> anyhow::Result<M> {
    let mut machine = M::fresh();
    machine.load(image)?;
    Ok(machine)
}

pub(crate) fn mos6502() -> anyhow::Result<Mos6502> {
    let mut image = [0; Mos6502::IMAGE_BYTES];
    image[3] = 0xFF;
    image[4] = 0x24;
    image[5] = 0xF8;
    image[2058..2068].copy_from_slice(&PROGRAM);
    image[2090..2097].copy_from_slice(&HANDLER);
    // the switch's vector, FFFEh
    image[4104] = 0x20;
    image[4105] = 0xF8;
    loaded(&image)
}

pub(crate) fn rv32i() -> anyhow::Result<Rv32i> {
    let mut image = [0; Rv32i::IMAGE_BYTES];
    // enabled
    image[132] = 1;
    image[136..164].copy_from_slice(&WORDS);
    loaded(&image)
}
