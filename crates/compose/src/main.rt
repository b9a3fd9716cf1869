// Composes a sheet: its numbers as text on standard input, and its bytes on standard output, or one line on standard error that says what is wrong
// with the text and where.

#![tactic(auto)]

use std::io;
use std::io::Write;

// Composes the text of standard input; one byte more than a text may have is taken, so that one that is too long is told.
fn main(rt: HostRuntime) -> io::Result<()> {
    let mut bytes = [0u8; 16385];
    let mut page = [0u8; composing::PAGE];
    let n = intake::fill(&mut rt.stdin(), &mut bytes)?;
    let printed = composing::compose(&bytes[..n], &mut page);
    let output = &page[..text::bytes_of(printed)];
    match printed {
        Ok(_) => rt.stdout().write_all(output),
        Err(_) => rt.stderr().write_all(output),
    }
}
