// A sheet out of its text: its bytes, or one line that says what is wrong and where.

#![tactic(auto)]

ghost use Rattle.std.specs.Prelude.{◌≡◌, ◌≤◌, length};
ghost use Rattle.fields.specs.Refusal.{refusal};
ghost use Rattle.text.specs.Contract.{Room, Written};
ghost use Rattle.composing.specs.Composed.{slip_line, line_of, place_text, rule_in, outside_line, fault_end, fault_text, complaint};
ghost use Rattle.composing.specs.Composed.{composed, composed_bytes, composed_printed, compose_page};
ghost use Rattle.composing.specs.Inside.{by_list};
ghost use Rattle.composing.specs.Contract.{Compose};

use fields::{Refusal, Rule, User, Why};
use naming::Extent;
use scribe::{Mistake, Slip};
use text::{Page, Refused};

// The line of the number at a place of a text: that of the first number for which a list of so many has no room, if there is such a number.
fn line_of(text: &[u8], place: usize) -> Option<usize>
    requires { place ≤ 232 }
    ensures { result ≡ line_of text.now place }
{
    let mut numbers = [0u32; 232];
    match scribe::numbers_of_text(text, &mut numbers[..place]) {
        Ok(_) => None,
        Err(mistake) => Some(mistake.line),
    }
}

// Writes where a number stands: its line, where the text has it, and its place in the sheet.
#[tactic(auto, unfolding(crate::specs::Composed::place_text))]
fn put_place(line: Option<usize>, place: usize, page: &mut Page<'_>)
    requires { Room (place_text line place) page.old }
    ensures { Written (place_text line place) page.old page.new }
{
    match line {
        Some(line) => {
            page.put_field(b"line ", line as u64);
            page.put_field(b": number ", place as u64);
        }
        None => page.put_field(b"number ", place as u64),
    }
}

// The rule of the field at a place of a list, as the writer has it.
fn rule_at(numbers: &[u32], place: usize) -> Rule
    requires { place ≤ 1000 }
    ensures { result ≡ rule_in numbers.now place }
{
    let extent = Extent::of(numbers);
    let prev = naming::number_at(numbers, place.saturating_sub(1));
    fields::field_rule(User::Writer, extent.field_at(place), extent.servers, prev)
}

// Writes that the number at a place is outside its range.
fn put_outside(numbers: &[u32], place: usize, page: &mut Page<'_>)
    requires { (place ≤ 1000) × Room (outside_line numbers.now place) page.old }
    ensures { Written (outside_line numbers.now place) page.old page.new }
{
    page.put_field(b") is ", u64::from(naming::number_at(numbers, place)));
    naming::put_range(rule_at(numbers, place), page);
    page.put_word(b"\n");
}

// Writes that the number at a place is missing or outside its range.
#[tactic(auto, using(crate::proofs::Complaining::end_outside), unfolding(crate::specs::Composed::fault_end))]
fn put_end(numbers: &[u32], why: Why, place: usize, page: &mut Page<'_>)
    requires { (place ≤ 1000) × Room (fault_end numbers.now (refusal why) place) page.old }
    ensures { Written (fault_end numbers.now (refusal why) place) page.old page.new }
{
    if why == Why::Ends {
        page.put_word(b") is missing\n");
    } else {
        put_outside(numbers, place, page);
    }
}

// Writes what is wrong with the number at a place: it is left over, missing or outside its range.
fn put_fault(numbers: &[u32], why: Why, place: usize, page: &mut Page<'_>)
    requires { (place ≤ 1000) × Room (fault_text numbers.now (refusal why) place) page.old }
    ensures { Written (fault_text numbers.now (refusal why) place) page.old page.new }
{
    if why == Why::Left {
        page.put_word(b" is left over\n");
    } else {
        page.put_word(b" (");
        Extent::of(numbers).put_name_at(place, page);
        put_end(numbers, why, place, page);
    }
}

// Writes what is wrong with a text's numbers.
fn put_complaint(text: &[u8], numbers: &[u32], refused: Refusal, page: &mut Page<'_>)
    requires { (refused.at ≤ 231) × Room (complaint text.now numbers.now refused.why refused.at) page.old }
    ensures { Written (complaint text.now numbers.now refused.why refused.at) page.old page.new }
{
    put_place(line_of(text, refused.at), refused.at, page);
    put_fault(numbers, refused.why, refused.at, page);
}

// Writes what is wrong with the text itself.
fn put_slip(mistake: Mistake, page: &mut Page<'_>)
    requires { Room (slip_line mistake.slip mistake.line) page.old }
    ensures { Written (slip_line mistake.slip mistake.line) page.old page.new }
{
    page.put_field(b"line ", mistake.line as u64);
    match mistake.slip {
        Slip::Word => page.put_word(b": not a number\n"),
        Slip::Large => page.put_word(b": a number above 4294967295\n"),
        Slip::Many => page.put_word(b": more than 232 numbers\n"),
    }
}

// Writes the sheet of a text's numbers on an empty page, or what is wrong with them.
fn put_numbers(text: &[u8], numbers: &[u32], page: &mut Page<'_>) -> Result<usize, Refused>
    requires empty { page.old.at ≡ 0 }
    requires room { length page.old.bytes.now ≡ compose_page }
    ensures gives { result ≡ composed_printed (by_list text.now numbers.now) }
    ensures writes { Written (composed_bytes (by_list text.now numbers.now)) page.old page.new }
{
    match sheet::write_sheet(numbers, page.bytes) {
        Ok(n) => {
            page.at = n;
            Ok(n)
        }
        Err(refused) => {
            put_complaint(text, numbers, refused, page);
            Err(Refused { length: page.at })
        }
    }
}

// The most bytes that a text has.
const LONGEST: usize = 16384;

// Writes what is made of a text on an empty page. One number more than a sheet has is taken, so that the writer can say that it is left over.
fn put_composed(text: &[u8], page: &mut Page<'_>) -> Result<usize, Refused>
    requires empty { page.old.at ≡ 0 }
    requires room { length page.old.bytes.now ≡ compose_page }
    ensures gives { result ≡ composed_printed (composed text.now) }
    ensures writes { Written (composed_bytes (composed text.now)) page.old page.new }
{
    if LONGEST < text.len() {
        page.put_word(b"the text is longer than 16384 bytes\n");
        return Err(Refused { length: page.at });
    }
    let mut numbers = [0u32; 232];
    match scribe::numbers_of_text(text, &mut numbers) {
        Ok(n) => put_numbers(text, &numbers[..n], page),
        Err(mistake) => {
            put_slip(mistake, page);
            Err(Refused { length: page.at })
        }
    }
}

// Every sheet and every line has room on a page of so many bytes.
pub const PAGE: usize = 512;

// Writes the sheet of a text over the front of a lent buffer, or one line that says what is wrong and where, and gives what there is to print. Where
// the buffer is too short for it, the buffer stays as it was, and the length needed is given.
pub fn compose(text: &[u8], out: &mut [u8]) -> Result<usize, Refused>
    ensures { Compose text.now out.old result out.new }
{
    let mut buffer = [0u8; PAGE];
    let mut page = Page {
        bytes: &mut buffer,
        at: 0,
    };
    let printed = put_composed(text, &mut page);
    page.hand_over(out);
    printed
}
