// A case of the table: an image, and what is done to the guest that loads it.

ghost use Rattle.std.specs.Prelude.{◌≡◌, ◌≤◌};
ghost use Rattle.rv32i_tests.specs.Cases.{digit_of};

use machine::{Event, Machine};
use rv32i::Rv32i;

// The bytes of a case, room for more behind its image, and what stands there.
pub const SPACE: usize = 4700;

pub const FILL: u8 = 0xa5;

const BLANK_LENGTH: usize = Rv32i::IMAGE_BYTES;

const ENABLED_AT: usize = 132;

// What a case does to the guest, as the cases of the 6502 do, spelled and told otherwise.
#[derive(Clone, Copy)]
pub enum Action {
    Step,
    Take(Event),
}

// The image is the first `length` bytes; it is saved to a buffer of `room` bytes. The array is whole, and no vector of `length` bytes, since what
// lies behind the image is compared too.
#[derive(Drop)]
pub struct Case {
    pub bytes: [u8; SPACE],
    pub length: usize,
    pub room: usize,
    ghost fits: { (length ≤ 4700) × (room ≤ 4700) },
}

impl Case {
    // The blank image, all bytes 0 but enabled.
    pub(crate) fn new() -> Case {
        let mut bytes = [FILL; SPACE];
        bytes[..BLANK_LENGTH].fill(0);
        bytes[ENABLED_AT] = 1;
        Case {
            bytes,
            length: BLANK_LENGTH,
            room: SPACE,
        }
    }

    // Takes a part of the line: bytes of the image at an offset, or a length. None is for a part that is neither.
    pub(crate) fn put(&mut self, part: &str) -> Option<()> {
        if let Some((at, digits)) = part.split_once(':') {
            return self.put_bytes(usize::from_str_radix(at, 16).ok()?, digits.as_bytes());
        }
        let (name, number) = part.split_once('=')?;
        let size = number.parse::<usize>().ok().filter(|size| *size <= SPACE)?;
        match name {
            "len" => self.length = size,
            "room" => self.room = size,
            _ => return None,
        }
        Some(())
    }

    fn put_bytes(&mut self, at: usize, digits: &[u8]) -> Option<()> {
        let (pairs, []) = digits.as_chunks::<2>() else {
            return None;
        };
        for (i, [high, low]) in pairs.iter().enumerate() {
            let byte = self.bytes.get_mut(at.checked_add(i)?)?;
            *byte = digit(*high)? * 16 + digit(*low)?;
        }
        Some(())
    }
}

// The value of a hexadecimal digit. The table has small letters; `char::to_digit` would take capitals too.
fn digit(byte: u8) -> Option<u8>
    ensures { result ≡ digit_of byte }
{
    match byte {
        b'0'..=b'9' => Some(byte - b'0'),
        b'a'..=b'f' => Some(byte - b'a' + 10),
        _ => None,
    }
}

// S steps, T takes the timer, and W with two digits a switch. It is no `FromStr`, which would declare an error type to drop it at once.
pub(crate) fn parse_action(text: &str) -> Option<Action> {
    match text {
        "S" => Some(Action::Step),
        "T" => Some(Action::Take(Event::Timer)),
        _ => {
            let data = text.strip_prefix('W')?;
            Some(Action::Take(Event::Switch(u8::from_str_radix(data, 16).ok()?)))
        }
    }
}
