// Shows a sheet: its bytes on standard input, and its numbers as text on standard output, a line for each with the name of its field; `compose`
// makes the same sheet of it. The line of a refusal goes to standard error.

#![tactic(auto)]

use std::io;
use std::io::Write;

// Takes at most the first 1,024 bytes of standard input, and prints the text of the sheet they are.
fn main(rt: HostRuntime) -> io::Result<()> {
    let mut bytes = [0u8; 1024];
    let mut page = [0u8; showing::PAGE];
    let n = intake::fill(&mut rt.stdin(), &mut bytes)?;
    let printed = showing::show(&bytes[..n], &mut page);
    let output = &page[..text::bytes_of(printed)];
    match printed {
        Ok(_) => rt.stdout().write_all(output),
        Err(_) => rt.stderr().write_all(output),
    }
}
