// Prints the hierarchy of the plant text on standard input, or its refusal. Document 01, "Plant text and listing".
// One byte more than a text may have is read, so that a longer one is refused and not held.
#![tactic(auto)]

use std::io;
use std::io::{Read, Write};
use text::show::list_text;

fn main(rt: HostRuntime) -> io::Result<()> {
    let mut text = Vec::new(rt.alloc());
    rt.stdin().take(32769).read_to_end(&mut text)?;
    let mut bytes = [0u8; 262144];
    // no listing is longer than the list, so that it is not refused
    let count = list_text(&text, &mut bytes).unwrap_or(0);
    io::writer(&rt).write_all(&bytes[..count])
}
