// The static library for C (include/gullbiscuit.h): the entries of the crate desk under their names, with the same contracts.

#![tactic(auto)]

ghost use Rattle.desk.specs.Contract.{GullbiscuitReadSheet, GullbiscuitWriteSheet, GullbiscuitAnalyse};

// Reads a sheet's bytes into a lent list of numbers: their count, or a refusal that leaves the list as it was.
#[unsafe(no_mangle)]
pub extern "C" fn gullbiscuit_read_sheet(sheet: &[u8], numbers: &mut [u32]) -> u64
    ensures { GullbiscuitReadSheet sheet.now numbers.old result numbers.new }
{
    desk::gullbiscuit_read_sheet(sheet, numbers)
}

// Writes a list of numbers as a sheet's bytes into a lent buffer: their length, or a refusal that leaves the buffer as it was.
#[unsafe(no_mangle)]
pub extern "C" fn gullbiscuit_write_sheet(numbers: &[u32], sheet: &mut [u8]) -> u64
    ensures { GullbiscuitWriteSheet numbers.now sheet.old result sheet.new }
{
    desk::gullbiscuit_write_sheet(numbers, sheet)
}

// Analyses a sheet and writes the answer record into a lent buffer: its length, or a refusal that leaves the buffer as it was.
#[unsafe(no_mangle)]
pub extern "C" fn gullbiscuit_analyse(sheet: &[u8], answer: &mut [u8]) -> u64
    ensures { GullbiscuitAnalyse sheet.now answer.old result answer.new }
{
    desk::gullbiscuit_analyse(sheet, answer)
}
