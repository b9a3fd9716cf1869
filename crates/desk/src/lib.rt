// The entries for the listing desk's programs in C: each gives refusal × 2^32 + detail as one number, with refusal 0 on success. The crate desk_c
// hands them out to C.

#![tactic(auto)]

ghost use Rattle.std.specs.Prelude.{◌≡◌, ◌≤◌, ◌<◌, length};
ghost use Rattle.fields.specs.Refusal.{detail};
ghost use Rattle.ground.specs.Buffer.{holds};
ghost use Rattle.sheet.specs.Sheet.{encode_all, gives};
ghost use Rattle.analysis.specs.Verdict.{verdict_of};
ghost use Rattle.desk.specs.Packed.{as_one, packed};
ghost use Rattle.desk.specs.Answer.{answer_gives, answer_holds};
ghost use Rattle.desk.specs.Record.{Fits, record_in};
ghost use Rattle.desk.specs.Contract.{GullbiscuitReadSheet, GullbiscuitWriteSheet, GullbiscuitAnalyse};

use analysis::Analysed;
use arrayvec::ArrayVec;
use fields::{Refusal, Why};

// A refusal and its detail as one number: every entry's answer is made here.
// Kept: C gets one number, so the two are packed into one.
fn as_one(refusal: u32, detail: usize) -> u64
    requires { detail < 4294967296 }
    ensures { result ≡ as_one refusal detail }
{
    u64::from(refusal) * 4294967296 + detail as u64
}

// What an entry gives, as one number.
fn pack(outcome: Result<usize, Refusal>) -> u64
    requires { detail outcome < 4294967296 }
    ensures { result ≡ packed outcome }
{
    match outcome {
        Ok(n) => as_one(0, n),
        Err(refusal) => as_one(fields::refusal_of(refusal.why), refusal.at),
    }
}

// Reads a sheet's bytes into a lent list of numbers: their count, or a refusal that leaves the list as it was.
#[tactic(auto, using(sheet::proofs::DetailLaws::read_detail_small))]
pub fn gullbiscuit_read_sheet(sheet: &[u8], numbers: &mut [u32]) -> u64
    ensures { GullbiscuitReadSheet sheet.now numbers.old result numbers.new }
{
    pack(sheet::read_sheet(sheet, numbers))
}

// Writes a list of numbers as a sheet's bytes into a lent buffer: their length, or a refusal that leaves the buffer as it was.
#[tactic(auto, using(sheet::proofs::DetailLaws::write_detail_small))]
pub fn gullbiscuit_write_sheet(numbers: &[u32], sheet: &mut [u8]) -> u64
    ensures { GullbiscuitWriteSheet numbers.now sheet.old result sheet.new }
{
    pack(sheet::write_sheet(numbers, sheet))
}

// The numbers of an answer record: bound, start, grid, number of groups, each group's wait.
fn record_of(found: &Analysed) -> ArrayVec<u32, 36>
    requires { Fits found.now }
    ensures { result.items ≡ record_in found.now }
{
    let mut record = ArrayVec::new();
    record.push(found.bound as u32);
    record.push(found.start as u32);
    record.push(found.grid as u32);
    record.push(found.count as u32);
    for wait in &found.waits[..found.count] {
        record.push(*wait as u32);
    }
    record
}

// Writes an answer record into a lent buffer: its length, or refusal 10, which leaves the buffer as it was.
#[tactic(auto, using(ground::proofs::BufferLaws::holds_room))]
fn put_record(numbers: &[u32], answer: &mut [u8]) -> Result<usize, Refusal>
    requires { length numbers.now ≤ 36 }
    ensures gives { result ≡ gives (length (encode_all numbers.now)) (length answer.old) }
    ensures holds { answer.new ≡ holds (encode_all numbers.now) answer.old }
{
    let needed = sheet::list_width(numbers);
    if answer.len() < needed {
        return Err(Refusal {
            why: Why::Short,
            at: needed,
        });
    }
    sheet::put_all(numbers, answer);
    Ok(needed)
}

// Writes the answer record of a sheet into a lent buffer: its length, or the first refusal, which leaves the buffer as it was.
#[tactic(auto, using(crate::proofs::Answering::answer_given, crate::proofs::Answering::answer_held, crate::proofs::Answering::listing_fits))]
fn put_answer(sheet: &[u8], answer: &mut [u8]) -> Result<usize, Refusal>
    ensures gives { result ≡ answer_gives (verdict_of sheet.now) (length answer.old) }
    ensures holds { answer.new ≡ answer_holds (verdict_of sheet.now) answer.old }
{
    let found = analysis::analyse(sheet)?;
    put_record(&record_of(&found), answer)
}

// Analyses a sheet and writes the answer record into a lent buffer: its length, or a refusal that leaves the buffer as it was.
#[tactic(auto, using(crate::proofs::Answering::answer_detail_small))]
pub fn gullbiscuit_analyse(sheet: &[u8], answer: &mut [u8]) -> u64
    ensures { GullbiscuitAnalyse sheet.now answer.old result answer.new }
{
    pack(put_answer(sheet, answer))
}
