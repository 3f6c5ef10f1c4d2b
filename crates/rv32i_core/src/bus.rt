// What the core reads and writes by address: ROM, RAM, the lamp and the switch. The 6502 has the same parts at other, narrower addresses: a type for
// both would still have a map, a read and a write for each.

ghost use Rattle.std.specs.Prelude.{◌≡◌};
ghost use Rattle.rv32i_core.specs.Memory.{byte_at, half_at, word_at, with_byte, with_half, with_word, loaded, stored};

use super::words::extend;
use rv32i_decode::instructions::{LoadKind, StoreKind};

#[derive(Drop)]
pub struct Bus {
    pub rom: [u8; 2048],
    pub ram: [u8; 2048],
    pub lamp: u8,
    pub switch: u8,
}

impl Bus {
    // The byte at an address; where there is nothing, 0.
    fn byte(&self, address: u32) -> u8
        ensures { result ≡ byte_at self.now address }
    {
        match address {
            0x0000..=0x07ff => self.rom[address as usize],
            0x1000..=0x17ff => self.ram[address as usize - 0x1000],
            0x2000 => self.lamp,
            0x2001 => self.switch,
            _ => 0,
        }
    }

    // Two bytes, the low one first; addresses wrap. Two bytes and four are written out, here and in the writes below: an array of N bytes filled by a
    // closure, or a loop that adds its count to the address, is no shorter.
    fn half(&self, address: u32) -> u16
        ensures { result ≡ half_at self.now address }
    {
        u16::from_le_bytes([self.byte(address), self.byte(address.wrapping_add(1))])
    }

    // Four bytes, the low one first; addresses wrap.
    pub(crate) fn word(&self, address: u32) -> u32
        ensures { result ≡ word_at self.now address }
    {
        u32::from_le_bytes([
            self.byte(address),
            self.byte(address.wrapping_add(1)),
            self.byte(address.wrapping_add(2)),
            self.byte(address.wrapping_add(3)),
        ])
    }

    // Only RAM and the lamp take a byte; elsewhere it is dropped.
    fn put_byte(&mut self, address: u32, byte: u8)
        ensures { self.new ≡ with_byte self.old address byte }
    {
        match address {
            0x1000..=0x17ff => self.ram[address as usize - 0x1000] = byte,
            0x2000 => self.lamp = byte,
            _ => {}
        }
    }

    // The low two bytes of a value.
    fn put_half(&mut self, address: u32, value: u32)
        ensures { self.new ≡ with_half self.old address value }
    {
        let [b0, b1, _, _] = value.to_le_bytes();
        self.put_byte(address, b0);
        self.put_byte(address.wrapping_add(1), b1);
    }

    fn put_word(&mut self, address: u32, value: u32)
        ensures { self.new ≡ with_word self.old address value }
    {
        let [b0, b1, b2, b3] = value.to_le_bytes();
        self.put_byte(address, b0);
        self.put_byte(address.wrapping_add(1), b1);
        self.put_byte(address.wrapping_add(2), b2);
        self.put_byte(address.wrapping_add(3), b3);
    }

    // What a load puts in its register.
    pub(crate) fn load(&self, kind: LoadKind, address: u32) -> u32
        ensures { result ≡ loaded self.now kind address }
    {
        match kind {
            LoadKind::Lb => extend(self.byte(address).cast_signed()),
            LoadKind::Lh => extend(self.half(address).cast_signed()),
            LoadKind::Lw => self.word(address),
            LoadKind::Lbu => u32::from(self.byte(address)),
            LoadKind::Lhu => u32::from(self.half(address)),
        }
    }

    pub(crate) fn store(&mut self, kind: StoreKind, address: u32, value: u32)
        ensures { self.new ≡ stored self.old kind address value }
    {
        match kind {
            StoreKind::Sb => {
                let [b0, ..] = value.to_le_bytes();
                self.put_byte(address, b0);
            }
            StoreKind::Sh => self.put_half(address, value),
            StoreKind::Sw => self.put_word(address, value),
        }
    }
}
