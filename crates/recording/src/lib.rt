// The reader of a recording file. It makes the checks that need no guest.
#![tactic(auto)]

ghost use Rattle.std.specs.Prelude.{◌≡◌, slice_index};
ghost use Rattle.recording.specs.Starts.{start_check, answer_of};

use faults::FileFault;

// The shortest recording: all its fixed parts, and an image and events of no bytes.
const LEAST_BYTES: usize = 21;

const VERSION: u8 = 1;

// The byte at the offset, 0 where the file has none.
pub fn byte_at(file: &[u8], offset: usize) -> u8
    ensures { result ≡ slice_index file.now offset }
{
    file.get(offset).copied().unwrap_or(0)
}

// The first four checks of a file, for the kinds of guest and landmark that the two bytes name: that it is long enough, its version, its stated
// length, and its guest and landmark bytes. The kinds come as bytes and not as an enum: a kind is a type, and its byte is a constant of its trait.
pub fn check_start(file: &[u8], guest: u8, mark: u8) -> Result<(), FileFault>
    ensures { result ≡ answer_of (start_check guest mark file.now) }
{
    let Some(start) = file.first_chunk::<LEAST_BYTES>() else {
        return Err(FileFault::Truncated(file.len()));
    };
    if start[0] != VERSION {
        return Err(FileFault::Version);
    }
    if u32::from_be_bytes([start[1], start[2], start[3], start[4]]) as usize != file.len() {
        return Err(FileFault::StatedLength);
    }
    if start[5] != guest {
        return Err(FileFault::GuestByte);
    }
    if start[6] != mark {
        return Err(FileFault::LandmarkByte);
    }
    Ok(())
}
