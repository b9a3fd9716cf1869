// The report: a sheet on standard input, and what the analysis says of it, in lines: a listing on standard output, or the line of a refusal on
// standard error, by which whoever starts the program can tell it from an answer.

#![tactic(auto)]

use std::io;
use std::io::Write;

// Takes at most the first 1,024 bytes of standard input, and prints the report of the sheet they are.
fn main(rt: HostRuntime) -> io::Result<()> {
    let mut bytes = [0u8; 1024];
    let mut page = [0u8; listing::PAGE];
    let n = intake::fill(&mut rt.stdin(), &mut bytes)?;
    let printed = listing::report(&bytes[..n], &mut page);
    let output = &page[..text::bytes_of(printed)];
    match printed {
        Ok(_) => rt.stdout().write_all(output),
        Err(_) => rt.stderr().write_all(output),
    }
}
