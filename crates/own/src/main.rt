// Reads a bill of own operations on standard input and prints what it comes to.
#![tactic(auto)]

use bills::answer::answer;
use bills::reading::MOST_BYTES;
use std::io;
use std::io::Read;

fn main(rt: HostRuntime) -> io::Result<()> {
    let mut bill = Vec::new(rt.alloc());
    // One byte more than a bill may have, so that a longer one is seen.
    rt.stdin()
        .take(MOST_BYTES as u64 + 1)
        .read_to_end(&mut bill)?;
    rt.print(answer(bill.as_slice()))
}
