// Reads a portfolio file on standard input, and prints the page of its book or where it stops.
#![tactic(auto)]

ghost use Rattle.std.specs.Prelude.{◌<◌, ◌≤◌, length, take, IfOk};
ghost use Rattle.std.specs.Io.KnownBytes.{Consumes, IsAtEnd};

use answering::answer::answer;
use pages::page::ROOM;
use portfolio::layout::MOST_BYTES;
use std::io;
use std::io::{ErrorKind, Read, Write};

// Reads on at the start of a buffer, until it is full or there is no more, and says how many bytes were read.
fn fill<R: Read>(reader: &mut R, buffer: &mut [u8]) -> io::Result<usize>
    ensures within { IfOk result (λ filled. filled ≤ length buffer.new) }
    ensures bytes { IfOk result (λ filled. Consumes (R.remaining reader.old) (R.remaining reader.new) (take filled buffer.new)) }
    ensures all { IfOk result (λ filled. filled < length buffer.new → IsAtEnd (R.remaining reader.new)) }
{
    let mut filled = 0;
    // A read gives 0 at the end and where there is no more room.
    for _ in 0..u64::MAX {
        match reader.read(&mut buffer[filled..]) {
            Ok(0) => return Ok(filled),
            Ok(read) => filled += read,
            Err(error) if error.kind() == ErrorKind::Interrupted => {}
            Err(error) => return Err(error),
        }
    }
    Err(ErrorKind::TimedOut.into())
}

fn main(rt: HostRuntime) -> io::Result<()> {
    // One byte more than a file may have, so that a longer one is seen.
    let mut bytes = [0; MOST_BYTES + 1];
    let mut page = [0; ROOM];
    let filled = fill(&mut rt.stdin(), &mut bytes)?;
    let length = answer(&bytes[..filled], &mut page).unwrap();
    rt.stdout().write_all(&page[..length])
}
