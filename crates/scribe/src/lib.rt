// A sheet's numbers as text: decimal numbers with blanks or line ends between them, and comments from `#` to the line's end.

#![tactic(auto, using(std::proofs::lemmas::Bool::Decides::nat_tests), unfolding(crate::specs::Text::is_blank, crate::specs::Text::is_digit, crate::specs::Text::outside_by, crate::specs::Text::longer_by, crate::specs::Text::inside_by, crate::specs::Text::turn_of, crate::specs::Text::line_after))]

ghost use Rattle.std.specs.Prelude.{◌≡◌, ◌≤◌, ◌<◌};
ghost use Rattle.scribe.specs.Text.{is_blank, is_digit, outside_by, longer_by, inside_by, turn_of, line_after};
ghost use Rattle.scribe.specs.Contract.{NumbersOfText};

// Where in the text the reader stands: between numbers, in a comment, or inside a number whose digits so far are worth this.
#[derive(Clone, Copy)]
pub enum Mark {
    Between,
    Comment,
    Inside(u32),
}

// What is wrong with a text: a byte that no number has; a number above 4,294,967,295; more numbers than there is room for.
#[derive(Clone, Copy)]
pub enum Slip {
    Word,
    Large,
    Many,
}

// What is wrong with a text, and in which line, counted from 1.
#[derive(Clone, Copy)]
pub struct Mistake {
    pub slip: Slip,
    pub line: usize,
}

// What a byte does: the number that ends with it, if one does, and where the reader stands behind it; or the text is wrong.
type Turn = Result<(Option<u32>, Mark), Slip>;

// Whether a byte stands between numbers.
fn is_blank(b: u8) -> bool
    ensures { result ≡ is_blank b }
{
    matches!(b, b' ' | b'\t' | b'\r' | b'\n')
}

// What a byte does between numbers.
fn outside(b: u8) -> Turn
    ensures { result ≡ outside_by b }
{
    match b {
        _ if is_blank(b) => Ok((None, Mark::Between)),
        b'#' => Ok((None, Mark::Comment)),
        b'0'..=b'9' => Ok((None, Mark::Inside(u32::from(b - b'0')))),
        _ => Err(Slip::Word),
    }
}

// What a digit does inside a number whose digits so far are worth v.
fn longer(v: u32, d: u8) -> Turn
    requires { d ≤ 9 }
    ensures { result ≡ longer_by v d }
{
    match u32::try_from(10 * u64::from(v) + u64::from(d)) {
        Ok(x) => Ok((None, Mark::Inside(x))),
        Err(_) => Err(Slip::Large),
    }
}

// What a byte does inside a number whose digits so far are worth v.
fn inside(v: u32, b: u8) -> Turn
    ensures { result ≡ inside_by v b }
{
    match b {
        b'0'..=b'9' => longer(v, b - b'0'),
        _ if is_blank(b) => Ok((Some(v), Mark::Between)),
        b'#' => Ok((Some(v), Mark::Comment)),
        _ => Err(Slip::Word),
    }
}

// What a byte does.
fn turn_of(mark: Mark, b: u8) -> Turn
    ensures { result ≡ turn_of mark b }
{
    match mark {
        Mark::Between => outside(b),
        Mark::Comment if b == b'\n' => Ok((None, Mark::Between)),
        Mark::Comment => Ok((None, Mark::Comment)),
        Mark::Inside(v) => inside(v, b),
    }
}

// The line in which the byte behind b stands.
fn line_after(line: usize, b: u8) -> usize
    requires { line < 18446744073709551615 }
    ensures { result ≡ line_after line b }
{
    if b == b'\n' { line + 1 } else { line }
}

// Reads a text's numbers over the front of a lent list: their count, or what is wrong with the text and in which line. Entries past the
// numbers read stay. A number for which the list has no room is wrong, so that a list of i numbers tells the line of the number behind them.
// A line end stands behind the text.
pub fn numbers_of_text(text: &[u8], numbers: &mut [u32]) -> Result<usize, Mistake>
    ensures { NumbersOfText text.now numbers.old result numbers.new }
{
    let mut mark = Mark::Between;
    let mut line = 1;
    let mut n = 0;
    for i in 0..text.len() + 1 {
        let b = text.get(i).copied().unwrap_or(b'\n');
        let (ended, next) = turn_of(mark, b).map_err(|slip| Mistake { slip, line })?;
        if let Some(x) = ended {
            if numbers.len() <= n {
                return Err(Mistake {
                    slip: Slip::Many,
                    line,
                });
            }
            numbers[n] = x;
            n += 1;
        }
        mark = next;
        line = line_after(line, b);
    }
    Ok(n)
}
