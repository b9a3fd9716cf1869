// The sheet: the reader and the writer, which walk over its fields by one rule.

#![tactic(auto)]

ghost use Rattle.std.specs.Prelude.{◌≡◌, ◌+◌, ◌≤◌, ◌<◌, ℕ, Result, IfOk, length};
ghost use Rattle.numbers.specs.declared.Fault.{Fault};
ghost use Rattle.numbers.specs.Seven.{number_at};
ghost use Rattle.fields.specs.Rule.{most};
ghost use Rattle.sheet.specs.Sheet.{entry_at, sheet_of, list_of, encode_all};
ghost use Rattle.sheet.specs.Inside.{found, checked, Standing, whole, rest, onward, count_after};
ghost use Rattle.sheet.specs.Contract.{ReadSheet, WriteSheet, ListWidth, PutAll};

use fields::{Cursor, Refusal, User, Why};
use numbers::Fault;

// Where the numbers of a sheet come from: what stands at each place, and where the places end.
trait Source {
    ghost numbers: { Self → ℕ → Result (ℕ × ℕ) Fault };

    ghost end: { Self → ℕ };

    // The number at a place, with the place behind it, or why there is none.
    fn number_from(&self, at: usize) -> Result<(u32, usize), Fault>
        ensures { result ≡ numbers self.now at };

    // The place behind the last.
    fn size(&self) -> usize
        ensures { result ≡ end self.now };
}

// The bytes of a sheet, for the reader.
impl Source for &[u8] {
    ghost numbers = { λ bytes. number_at bytes.now };

    ghost end = { λ bytes. length bytes.now };

    fn number_from(&self, at: usize) -> Result<(u32, usize), Fault> {
        reader::number_from(self, at)
    }

    fn size(&self) -> usize {
        self.len()
    }
}

// A list of numbers, for the writer.
impl Source for &[u32] {
    ghost numbers = { λ xs. entry_at xs.now };

    ghost end = { λ xs. length xs.now };

    fn number_from(&self, at: usize) -> Result<(u32, usize), Fault> {
        match self.get(at) {
            Some(x) => Ok((*x, at + 1)),
            None => Err(Fault::Ends),
        }
    }

    fn size(&self) -> usize {
        self.len()
    }
}

// A walk over the fields of a sheet: whose rule it goes by, how many numbers it has passed, and where the next one stands. The cursor is that of
// the field behind those numbers, and no sheet has more than `most`.
#[derive(Drop)]
struct Walk<S> {
    source: S,
    user: User,
    passed: usize,
    at: usize,
    cursor: Cursor,
    ghost few: { passed ≤ most },
    ghost stands: { ∥ Standing user passed cursor ∥₁ },
}

impl<S: Source> Walk<S> {
    // A walk that stands at the first field.
    fn over(user: User, source: S) -> Walk<S>
        ensures none { result.passed ≡ 0 }
        ensures whole { rest result.user (S.numbers result.source) (S.end result.source) result.passed result.at result.cursor ≡ whole user (S.numbers source) (S.end source) }
    {
        Walk {
            source,
            user,
            passed: 0,
            at: 0,
            cursor: Cursor::start(user),
        }
    }

    // The next number, if there is one more; or why there is no sheet.
    fn next(&mut self) -> Result<Option<u32>, Refusal>
        ensures counts { self.new.passed ≡ count_after result self.old.passed }
        ensures gives { rest self.old.user (S.numbers self.old.source) (S.end self.old.source) self.old.passed self.old.at self.old.cursor ≡ onward result (rest self.new.user (S.numbers self.new.source) (S.end self.new.source) self.new.passed self.new.at self.new.cursor) }
    {
        let got = self.source.number_from(self.at);
        match fields::step_on(got, self.source.size(), self.at, self.cursor.rule)? {
            Some((x, next)) => {
                self.passed += 1;
                self.at = next;
                self.cursor = self.cursor.after(self.user, x);
                Ok(Some(x))
            }
            None => Ok(None),
        }
    }
}

// Reads a sheet's numbers into a list of the greatest length that they can have: their count, or why there are none.
fn numbers_of(bytes: &[u8], values: &mut [u32; 231]) -> Result<usize, Refusal>
    ensures same { found result values.new ≡ sheet_of bytes.now }
    ensures few { IfOk result (λ n. n ≤ most) }
{
    let mut walk = Walk::over(User::Reader, bytes);
    while let Some(x) = walk.next()? {
        values[walk.passed - 1] = x;
    }
    Ok(walk.passed)
}

// Reads a sheet into a lent list: the count of its numbers, or a refusal that leaves the list as it was.
pub fn read_sheet(bytes: &[u8], numbers: &mut [u32]) -> Result<usize, Refusal>
    ensures { ReadSheet bytes.now numbers.old result numbers.new }
{
    let mut values = [0u32; 231];
    let n = numbers_of(bytes, &mut values)?;
    if numbers.len() < n {
        return Err(Refusal {
            why: Why::Short,
            at: n,
        });
    }
    numbers[..n].copy_from_slice(&values[..n]);
    Ok(n)
}

// The length of a list's bytes, or why it is no sheet.
fn check_list(xs: &[u32]) -> Result<usize, Refusal>
    ensures { result ≡ checked (list_of xs.now) }
{
    let mut sum = 0;
    let mut walk = Walk::over(User::Writer, xs);
    while let Some(x) = walk.next()? {
        sum += numbers::width(x);
    }
    Ok(sum)
}

// How many bytes a short list of numbers takes.
pub fn list_width(xs: &[u32]) -> usize
    requires { length xs.now ≤ 1000 }
    ensures { ListWidth xs.now result }
{
    xs.iter().map(|x| numbers::width(*x)).sum()
}

// Writes the bytes of a list of numbers over the front of a buffer that has room for them.
pub fn put_all(xs: &[u32], buf: &mut [u8])
    requires { length (encode_all xs.now) ≤ length buf.old }
    ensures { PutAll xs.now buf.old buf.new }
{
    let mut at = 0;
    for x in xs {
        at = numbers::put_number(*x, buf, at);
    }
}

// Writes a sheet from the list of its numbers: the length of its bytes, or a refusal that leaves the buffer as it was.
pub fn write_sheet(numbers: &[u32], bytes: &mut [u8]) -> Result<usize, Refusal>
    ensures { WriteSheet numbers.now bytes.old result bytes.new }
{
    let total = check_list(numbers)?;
    if bytes.len() < total {
        return Err(Refusal {
            why: Why::Short,
            at: total,
        });
    }
    put_all(numbers, bytes);
    Ok(total)
}
