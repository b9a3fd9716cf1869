// The report's text: what the analysis says of a sheet, in lines.

#![tactic(auto)]

ghost use Rattle.std.specs.Prelude.{◌≡◌};
ghost use Rattle.text.specs.Contract.{Room, Written};
ghost use Rattle.listing.specs.Text.{group_line};
ghost use Rattle.listing.specs.Held.{groups_held, listing_held, text_held, printed_held};
ghost use Rattle.listing.specs.Contract.{Report};

use analysis::Analysed;
use fields::Refusal;
use tandem::Flow;
use text::{Page, Refused};

// Writes a group's line.
fn put_group(group: &Flow, wait: u64, page: &mut Page<'_>)
    requires { Room (group_line group.now.first group.now.last wait) page.old }
    ensures { Written (group_line group.now.first group.now.last wait) page.old page.new }
{
    page.put_field(b"group ", group.first as u64);
    page.put_field(b" ", group.last as u64);
    page.put_line(b" wait ", wait);
}

// Writes the lines of all groups.
fn put_groups(found: &Analysed, page: &mut Page<'_>)
    requires { Room (groups_held found.now) page.old }
    ensures { Written (groups_held found.now) page.old page.new }
{
    for (group, wait) in found.groups[1..].iter().zip(&found.waits).take(found.count) {
        put_group(group, *wait, page);
    }
}

// Writes the lines of a listing.
fn put_listing(found: &Analysed, page: &mut Page<'_>)
    requires { Room (listing_held found.now) page.old }
    ensures { Written (listing_held found.now) page.old page.new }
{
    page.put_line(b"bound ", found.bound);
    page.put_line(b"start ", found.start);
    page.put_line(b"grid ", found.grid as u64);
    put_groups(found, page);
}

// Writes what an analysis says over the front of a page, and gives what there is to print.
fn put_text(analysed: &Result<Analysed, Refusal>, page: &mut Page<'_>) -> Result<usize, Refused>
    requires front { page.old.at ≡ 0 }
    requires room { Room (text_held analysed.now) page.old }
    ensures gives { result ≡ printed_held analysed.now }
    ensures writes { Written (text_held analysed.now) page.old page.new }
{
    match analysed {
        Ok(found) => {
            put_listing(found, page);
            Ok(page.at)
        }
        Err(refusal) => {
            page.put_refusal(fields::refusal_of(refusal.why), refusal.at);
            Err(Refused { length: page.at })
        }
    }
}

// Every report has room on a page of so many bytes.
pub const PAGE: usize = 2560;

// Writes the report of a sheet over the front of a lent buffer, and gives what there is to print. Where the buffer is too short for it, the
// buffer stays as it was, and the length needed is given.
pub fn report(bytes: &[u8], text: &mut [u8]) -> Result<usize, Refused>
    ensures { Report bytes.now text.old result text.new }
{
    let mut buffer = [0u8; PAGE];
    let mut page = Page {
        bytes: &mut buffer,
        at: 0,
    };
    let printed = put_text(&analysis::analyse(bytes), &mut page);
    page.hand_over(text);
    printed
}
