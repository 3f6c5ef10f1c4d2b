// The memory that the processor sees: RAM at the bottom, ROM at the top, and the two bytes of the dashboard between them. RV32I sees the same parts
// at other, wider addresses: a type for both would still have a map, a read and a write for each.
ghost use Rattle.std.specs.Prelude.{◌≡◌};
ghost use Rattle.mos6502_parts.specs.Memory.{byte_at, word_at, stored};

const LAMP: u16 = 0xD000;

const SWITCH: u16 = 0xD001;

#[derive(Drop)]
pub struct Memory {
    pub lamp: u8,
    pub switch: u8,
    pub ram: [u8; 2048],
    pub rom: [u8; 2048],
}

impl Memory {
    pub fn read(&self, at: u16) -> u8
        ensures { result ≡ byte_at self.now at }
    {
        match at {
            0..=0x7FF => self.ram[usize::from(at)],
            LAMP => self.lamp,
            SWITCH => self.switch,
            0xF800..=0xFFFF => self.rom[usize::from(at - 0xF800)],
            _ => 0,
        }
    }

    pub fn write(&mut self, at: u16, byte: u8)
        ensures { self.new ≡ stored self.old at byte }
    {
        match at {
            0..=0x7FF => self.ram[usize::from(at)] = byte,
            LAMP => self.lamp = byte,
            _ => {}
        }
    }

    // The word whose bytes stand at these two addresses.
    pub fn word(&self, low: u16, high: u16) -> u16
        ensures { result ≡ word_at self.now low high }
    {
        u16::from_le_bytes([self.read(low), self.read(high)])
    }
}
