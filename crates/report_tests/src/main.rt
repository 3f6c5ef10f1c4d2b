// Runs the report over a table: each line of standard input is a file in hexadecimal, and is answered by the line that the report prints.
#![tactic(auto)]

ghost use Rattle.std.specs.Prelude.{◌<◌};

use std::alloc::{AllocError, Global};
use std::io::{BufRead, BufReader};
use summary::{Summary, summarize};

// The value of a hexadecimal digit, 0 for any other byte. The crate hex would refuse a line that holds one.
fn digit(b: u8) -> u8
    ensures { result < 16 }
{
    match b {
        b'0'..=b'9' => b - b'0',
        b'a'..=b'f' => b - b'a' + 10,
        _ => 0,
    }
}

// The bytes of a line, two digits each.
fn bytes_of(heap: Global, line: &[u8]) -> Result<Vec<u8>, AllocError> {
    let (pairs, _) = line.as_chunks::<2>();
    pairs
        .iter()
        .map(|[high, low]| 16 * digit(*high) + digit(*low))
        .collect(heap)
}

fn main(rt: HostRuntime) -> anyhow::Result<()> {
    for line in BufReader::new(rt.alloc(), rt.stdin())?.lines(rt.alloc()) {
        let line = line?;
        let file = bytes_of(rt.alloc(), line.as_bytes())?;
        println!(rt; "{}", Summary(summarize(&file)))?;
    }
    Ok(())
}
