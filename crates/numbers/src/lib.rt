// One number in groups of seven bits, lowest first: read at a place of a byte string, its width, written at a place of a buffer.

#![tactic(auto)]

ghost use Rattle.std.specs.Prelude.{◌≡◌, ◌+◌, ◌≤◌, ◌<◌, length, get_or, drop};
ghost use Rattle.std.specs.Result.{MatchResult};
ghost use Rattle.numbers.specs.Seven.{scan, number_at, encode};
ghost use Rattle.numbers.specs.Inside.{settled, fifth_of, Continues};
ghost use Rattle.numbers.specs.Contract.{ReadNumber, Width, PutNumber};

// Why no number stands at a place of a byte string. Document 01 gives `Padded` and `Large` one number, 2; they are told apart here.
#[derive(Clone, Copy, PartialEq, Eq)]
pub enum Fault {
    // The bytes end inside it.
    Ends,
    // Not the shortest form.
    Padded,
    // A fifth group that continues, or a value above 4,294,967,295.
    Large,
}

// The group at a place.
fn group_at(bytes: &[u8], p: usize) -> Result<u64, Fault>
    ensures { MatchResult result (λ b. (p < length bytes.now) × (b ≡ get_or bytes.now p 0) × (b < 256)) (λ fault. (length bytes.now ≤ p) × (fault ≡ Fault.Ends)) }
{
    match bytes.get(p) {
        Some(b) => Ok(u64::from(*b)),
        None => Err(Fault::Ends),
    }
}

// The answer for a number of several groups that is not too large: its value, the last group, and the place behind it.
fn settle(value: u64, last: u64, next: usize) -> Result<(u32, usize), Fault>
    requires { value < 4294967296 }
    ensures { result ≡ settled value last next }
{
    if last == 0 {
        return Err(Fault::Padded);
    }
    Ok((value as u32, next))
}

// The number whose fifth group, the last that it may have, stands at a place, where the four before it are worth `sum`.
fn fifth(bytes: &[u8], p: usize, sum: u64) -> Result<(u32, usize), Fault>
    requires { sum < 268435456 }
    ensures { result ≡ fifth_of sum p (scan 1 (drop p bytes.now)) }
{
    let b = group_at(bytes, p)?;
    if 15 < b {
        return Err(Fault::Large);
    }
    settle(sum + b * 268435456, b, p + 1)
}

// The number at a place whose first group is worth `first` and says that another follows.
fn several(bytes: &[u8], at: usize, first: u64) -> Result<(u32, usize), Fault>
    requires { Continues bytes.now at first }
    ensures { result ≡ number_at bytes.now at }
{
    let mut weight: u64 = 128;
    let mut sum = first;
    for i in 1..4 {
        let b = group_at(bytes, at + i)?;
        if b < 128 {
            return settle(sum + b * weight, b, at + i + 1);
        }
        sum += (b - 128) * weight;
        weight *= 128;
    }
    fifth(bytes, at + 4, sum)
}

// The number that begins at a place, with the place behind it, or why there is none.
pub fn read_number(bytes: &[u8], at: usize) -> Result<(u32, usize), Fault>
    ensures { ReadNumber bytes.now at result }
{
    let b = group_at(bytes, at)?;
    if b < 128 {
        return Ok((b as u32, at + 1));
    }
    several(bytes, at, b - 128)
}

// How many bytes a number takes.
pub fn width(x: u32) -> usize
    ensures { Width x result }
{
    if x < 128 {
        1
    } else if x < 16384 {
        2
    } else if x < 2097152 {
        3
    } else if x < 268435456 {
        4
    } else {
        5
    }
}

// Writes a number at a place of a buffer that has room for it there, and gives the place behind it; all else stays.
pub fn put_number(x: u32, buf: &mut [u8], at: usize) -> usize
    requires { at + length (encode x) ≤ length buf.old }
    ensures { PutNumber x buf.old at result buf.new }
{
    let mut rest = x;
    for p in at..at + 4 {
        if rest < 128 {
            buf[p] = rest as u8;
            return p + 1;
        }
        buf[p] = (rest % 128 + 128) as u8;
        rest /= 128;
    }
    buf[at + 4] = rest as u8;
    at + 5
}
