// A sheet as text: a line for each number, with the name of its field.

#![tactic(auto)]

ghost use Rattle.std.specs.Prelude.{◌≡◌, ◌≤◌};
ghost use Rattle.sheet.specs.Sheet.{sheet_of};
ghost use Rattle.sheet.specs.Valid.{Valid};
ghost use Rattle.text.specs.Contract.{Room, Written};
ghost use Rattle.showing.specs.Shown.{named_line, shown, show_text, show_printed};
ghost use Rattle.showing.specs.Contract.{Show};

use naming::Extent;
use text::{Page, Refused};

// Writes the line of a number x at place i of a list with this extent.
fn put_named_line(x: u32, i: usize, extent: Extent, page: &mut Page<'_>)
    requires inside { i ≤ 1000 }
    requires room { Room (named_line x i extent) page.old }
    ensures { Written (named_line x i extent) page.old page.new }
{
    page.put_decimal(u64::from(x));
    page.put_word(b" # ");
    extent.put_name_at(i, page);
    page.put_word(b"\n");
}

// Writes the lines of a sheet's numbers.
fn put_lines(numbers: &[u32], page: &mut Page<'_>)
    requires valid { Valid numbers.now }
    requires room { Room (shown numbers.now) page.old }
    ensures { Written (shown numbers.now) page.old page.new }
{
    let extent = Extent::of(numbers);
    for (i, x) in numbers.iter().enumerate() {
        put_named_line(*x, i, extent, page);
    }
}

// Writes what is to be printed of a sheet on an empty page.
fn put_sheet(bytes: &[u8], page: &mut Page<'_>) -> Result<usize, Refused>
    requires empty { page.old.at ≡ 0 }
    requires room { Room (show_text (sheet_of bytes.now)) page.old }
    ensures gives { result ≡ show_printed (sheet_of bytes.now) }
    ensures writes { Written (show_text (sheet_of bytes.now)) page.old page.new }
{
    let mut numbers = [0u32; 231];
    match sheet::read_sheet(bytes, &mut numbers) {
        Ok(n) => {
            put_lines(&numbers[..n], page);
            Ok(page.at)
        }
        Err(refusal) => {
            page.put_refusal(fields::refusal_of(refusal.why), refusal.at);
            Err(Refused { length: page.at })
        }
    }
}

// Every text that is shown has room on a page of so many bytes.
pub const PAGE: usize = 16384;

// Writes the text of a sheet over the front of a lent buffer, or the line of its refusal, and gives what there is to print. Where the buffer is too
// short for it, the buffer stays as it was, and the length needed is given.
pub fn show(bytes: &[u8], text: &mut [u8]) -> Result<usize, Refused>
    ensures { Show bytes.now text.old result text.new }
{
    let mut buffer = [0u8; PAGE];
    let mut page = Page {
        bytes: &mut buffer,
        at: 0,
    };
    let printed = put_sheet(bytes, &mut page);
    page.hand_over(text);
    printed
}
