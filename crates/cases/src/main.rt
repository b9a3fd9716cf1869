// Runs many cases from standard input through the number reader, the sheet reader and the sheet writer, and writes one line a case.
//
// The input is the number of cases in four bytes, then the cases. A case is a letter (n, r or w: number, read or write), two bytes
// for the offset (n) or the room of the lent list or buffer (r, w), two for the size of what follows in bytes, and that many bytes:
// the bytes to read, or four for each number to write. Every number here has its lowest byte first.

#![tactic(auto)]

use fields::{Refusal, Why};
use std::io;
use std::io::Read;

// Why no more cases are run.
#[derive(Drop)]
enum Halt {
    // What is wrong with the input.
    Input(&'static str),
    // The input cannot be read, or a line cannot be written.
    Io(io::Error),
}

impl From<io::Error> for Halt {
    fn from(error: io::Error) -> Halt {
        Halt::Io(error)
    }
}

// What a call of the reader or of the writer is lent to write to: numbers, or bytes.
trait Entry: Copy + PartialEq + Drop {
    // What fills it before the call.
    const FILLER: Self;

    // Writes entries on the line of a case.
    fn print_all(rt: &impl Print, entries: &[Self]) -> io::Result<()>;
}

impl Entry for u32 {
    // No field of a sheet is as large.
    const FILLER: u32 = 2779096485;

    fn print_all(rt: &impl Print, numbers: &[u32]) -> io::Result<()> {
        for x in numbers {
            print!(rt; " {x}")?;
        }
        Ok(())
    }
}

impl Entry for u8 {
    const FILLER: u8 = 165;

    fn print_all(rt: &impl Print, bytes: &[u8]) -> io::Result<()> {
        print!(rt; " ")?;
        for x in bytes {
            print!(rt; "{x:02x}")?;
        }
        Ok(())
    }
}

// Writes the line of a refusal.
fn print_refusal(rt: &impl Print, refusal: Refusal) -> io::Result<()> {
    println!(rt;
        "refused {} {}",
        fields::refusal_of(refusal.why),
        refusal.at
    )
}

// Writes the line of a call that was lent a list, and one more if the list has changed behind what was to be written.
fn print_outcome<E: Entry>(
    rt: &impl Print,
    outcome: Result<usize, Refusal>,
    list: &[E],
) -> io::Result<()> {
    let written = match outcome {
        Ok(n) => {
            print!(rt; "ok {n}")?;
            E::print_all(rt, list.get(..n).unwrap_or(list))?;
            println!(rt; "")?;
            n
        }
        Err(refusal) => {
            print_refusal(rt, refusal)?;
            0
        }
    };
    if list.iter().skip(written).any(|x| *x != E::FILLER) {
        println!(rt; "touched")?;
    }
    Ok(())
}

// Lends so many entries of a list to a call, and writes what comes of it.
fn lend<E: Entry, F: FnOnce(&mut [E]) -> Result<usize, Refusal>>(
    rt: &impl Print,
    list: &mut [E],
    room: usize,
    call: F,
) -> Result<(), Halt>
    requires { F.IsAlwaysCallable call }
{
    let lent = list
        .get_mut(..room)
        .ok_or(Halt::Input("the room is too large"))?;
    let outcome = call(lent);
    print_outcome(rt, outcome, lent)?;
    Ok(())
}

// Reads the number at an offset.
fn number_case(rt: &impl Print, bytes: &[u8], at: usize) -> io::Result<()> {
    match numbers::read_number(bytes, at) {
        Ok((x, next)) => println!(rt; "ok {x} {next}"),
        Err(fault) => print_refusal(
            rt,
            Refusal {
                why: Why::from(fault),
                at,
            },
        ),
    }
}

// Reads a sheet into a list of `room` numbers.
fn read_case(rt: &impl Print, bytes: &[u8], room: usize) -> Result<(), Halt> {
    lend(rt, &mut [u32::FILLER; 320], room, |list| {
        sheet::read_sheet(bytes, list)
    })
}

// Writes a sheet of the numbers in the bytes of a case into a buffer of `room` bytes.
fn write_case(rt: &impl Print, bytes: &[u8], room: usize) -> Result<(), Halt> {
    let mut list = [0u32; 256];
    let (groups, rest) = bytes.as_chunks::<4>();
    let list = list
        .get_mut(..groups.len())
        .ok_or(Halt::Input("the input is too long"))?;
    if !rest.is_empty() {
        return Err(Halt::Input("a number is cut"));
    }
    for (x, group) in list.iter_mut().zip(groups) {
        *x = u32::from_le_bytes(*group);
    }
    lend(rt, &mut [u8::FILLER; 640], room, |buffer| {
        sheet::write_sheet(list, buffer)
    })
}

// Runs a case by its letter.
fn run_case(rt: &impl Print, letter: u8, bytes: &[u8], room: usize) -> Result<(), Halt> {
    match letter {
        b'n' => Ok(number_case(rt, bytes, room)?),
        b'r' => read_case(rt, bytes, room),
        b'w' => write_case(rt, bytes, room),
        _ => Err(Halt::Input("no such case")),
    }
}

// Fills a buffer from the input; `why` says what it means that the input ends before.
fn fill(input: &mut impl Read, bytes: &mut [u8], why: &'static str) -> Result<(), Halt> {
    input.read_exact(bytes).map_err(|error| match error.kind() {
        io::ErrorKind::UnexpectedEof => Halt::Input(why),
        _ => Halt::Io(error),
    })
}

// Takes the next case from the input, and runs it.
fn next_case(input: &mut impl Read, rt: &impl Print) -> Result<(), Halt> {
    let mut head = [0u8; 5];
    fill(input, &mut head, "a case is missing")?;
    let [letter, room0, room1, size0, size1] = head;
    let room = usize::from(u16::from_le_bytes([room0, room1]));
    let size = usize::from(u16::from_le_bytes([size0, size1]));
    let mut bytes = [0u8; 2048];
    let bytes = bytes
        .get_mut(..size)
        .ok_or(Halt::Input("the input is too long"))?;
    fill(input, bytes, "the input is cut")?;
    run_case(rt, letter, bytes, room)
}

// How many cases the input says that it has.
fn count_of(input: &mut impl Read) -> Result<u32, Halt> {
    let mut count = [0u8; 4];
    fill(input, &mut count, "the number of cases is cut")?;
    Ok(u32::from_le_bytes(count))
}

// Runs that many cases of the input.
fn run_cases(input: &mut impl Read, rt: &impl Print, count: u32) -> Result<(), Halt> {
    for _ in 0..count {
        next_case(input, rt)?;
    }
    Ok(())
}

// Sees that the input ends.
fn expect_end(input: &mut impl Read) -> Result<(), Halt> {
    match input.read(&mut [0u8; 1])? {
        0 => Ok(()),
        _ => Err(Halt::Input("bytes are left")),
    }
}

// Writes a line if something is wrong with the input.
fn report(rt: &impl Print, outcome: Result<(), Halt>) -> io::Result<()> {
    match outcome {
        Ok(()) => Ok(()),
        Err(Halt::Input(why)) => println!(rt; "{why}"),
        Err(Halt::Io(error)) => Err(error),
    }
}

// Runs all cases, or those up to the first that cannot be run, and says so if something is left behind them. Of an input that ends before it
// has said how many they are, nothing more is read.
fn main(rt: HostRuntime) -> io::Result<()> {
    let mut input = rt.stdin();
    match count_of(&mut input) {
        Ok(count) => {
            report(&rt, run_cases(&mut input, &rt, count))?;
            report(&rt, expect_end(&mut input))
        }
        Err(halt) => report(&rt, Err(halt)),
    }
}
