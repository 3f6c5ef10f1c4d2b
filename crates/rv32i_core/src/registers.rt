// The registers x0 to x31.

ghost use Rattle.std.specs.Prelude.{◌≡◌};
ghost use Rattle.rv32i_core.specs.Registers.{register, with_register};

// x1 to x31; x0 is always 0 and is not held.
#[derive(Drop)]
pub struct Registers {
    pub x: [u32; 31],
}

impl Registers {
    // The register of that number; there is none from 32 on, and 0 stands for it.
    pub(crate) fn get(&self, number: u8) -> u32
        ensures { result ≡ register self.now number }
    {
        match number {
            1..=31 => self.x[usize::from(number) - 1],
            _ => 0,
        }
    }

    // A write to x0 is dropped.
    pub(crate) fn set(&mut self, number: u8, value: u32)
        ensures { self.new ≡ with_register self.old number value }
    {
        match number {
            1..=31 => self.x[usize::from(number) - 1] = value,
            _ => {}
        }
    }
}
