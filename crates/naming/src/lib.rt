// The names of a sheet's fields, and the ranges of their rules, as text.

#![tactic(auto)]

ghost use Rattle.std.specs.Prelude.{◌≤◌, ◌≡◌};
ghost use Rattle.fields.specs.Rule.{server_at, flow_at};
ghost use Rattle.text.specs.Contract.{Room, Written};
ghost use Rattle.naming.specs.Names.{name_of, seen, owner_at, name_at, ends_of, range_of};
ghost use Rattle.naming.specs.Contract.{NumberAt, ExtentOf, FieldAt};

use fields::Rule;
use text::Page;

// The number at a place of a list, and 0 behind its end.
pub fn number_at(numbers: &[u32], i: usize) -> u32
    ensures { NumberAt numbers.now i result }
{
    numbers.get(i).copied().unwrap_or(0)
}

// What the places of a list's fields depend on: its edition, its number of servers and its number of cross flows.
#[derive(Clone, Copy)]
pub struct Extent {
    pub edition: u32,
    pub servers: u32,
    pub flows: u32,
}

impl Extent {
    // The extent of a list of numbers, as far as it goes.
    pub fn of(numbers: &[u32]) -> Extent
        ensures { ExtentOf numbers.now result }
    {
        let edition = number_at(numbers, 0);
        let servers = number_at(numbers, 1);
        let flows = number_at(numbers, fields::server_place(edition, servers as usize, 0));
        Extent {
            edition,
            servers,
            flows,
        }
    }

    // The place behind the servers, at which the number of cross flows stands.
    fn servers_end(self) -> usize
        ensures { result ≡ server_at self.edition self.servers 0 }
    {
        fields::server_place(self.edition, self.servers as usize, 0)
    }

    // The place at which the first cross flow begins.
    fn flows_begin(self) -> usize
        ensures { result ≡ flow_at self.edition self.servers 0 }
    {
        fields::flow_place(self.edition, self.servers as usize, 0)
    }

    // The place behind the cross flows.
    fn flows_end(self) -> usize
        ensures { result ≡ flow_at self.edition self.servers self.flows }
    {
        fields::flow_place(self.edition, self.servers as usize, self.flows as usize)
    }

    // The number, in document 01's table, of the field at place i of a list with this extent.
    #[tactic(auto, using(std::proofs::lemmas::Bool::Decides::nat_tests), unfolding(fields::specs::Rule::field_at))]
    pub fn field_at(self, i: usize) -> usize
        requires { i ≤ 1000 }
        ensures { FieldAt i self result }
    {
        match i {
            0 | 1 => i,
            _ if i < self.servers_end() => 2 + (i - 2) % fields::per_server(self.edition),
            _ if i < self.flows_begin() => 4,
            _ if i < self.flows_end() => 5 + (i - self.flows_begin()) % 4,
            _ => 9 + (i - self.flows_end()),
        }
    }

    // Which server or cross flow the field at place i is of, counted from 1. The names of the other fields do not ask.
    #[tactic(auto, using(std::proofs::lemmas::Bool::Decides::nat_tests), unfolding(crate::specs::Names::owner_at))]
    fn owner_at(self, i: usize) -> usize
        requires { i ≤ 1000 }
        ensures { result ≡ owner_at i (seen self) }
    {
        if i < self.servers_end() {
            i.saturating_sub(2) / fields::per_server(self.edition) + 1
        } else {
            i.saturating_sub(self.flows_begin()) / 4 + 1
        }
    }

    // Writes the name of the field at place i of a list with this extent.
    #[tactic(auto, unfolding(crate::specs::Names::name_at))]
    pub fn put_name_at(self, i: usize, page: &mut Page<'_>)
        requires { (i ≤ 1000) × Room (name_at i self) page.old }
        ensures { Written (name_at i self) page.old page.new }
    {
        put_name(self.field_at(i), self.owner_at(i), page);
    }
}

// Writes the name of a field, by its number in the table, and none behind the table.
// Kept: a field is a number, as in `fields`, since a place behind the last field has one too.
#[tactic(auto, using(std::proofs::lemmas::Bool::Decides::nat_tests), unfolding(crate::specs::Names::name_of))]
fn put_name(field: usize, owner: usize, page: &mut Page<'_>)
    requires { Room (name_of field owner) page.old }
    ensures { Written (name_of field owner) page.old page.new }
{
    let owner = owner as u64;
    match field {
        0 => page.put_word(b"edition"),
        1 => page.put_word(b"number of servers"),
        2 => page.put_field(b"rate of server ", owner),
        3 => page.put_field(b"latency of server ", owner),
        4 => page.put_word(b"number of cross flows"),
        5 => page.put_field(b"first server of flow ", owner),
        6 => page.put_field(b"last server of flow ", owner),
        7 => page.put_field(b"burst of flow ", owner),
        8 => page.put_field(b"rate of flow ", owner),
        9 => page.put_word(b"burst of the watched flow"),
        10 => page.put_word(b"rate of the watched flow"),
        11 => page.put_word(b"mode"),
        12 => page.put_word(b"g"),
        _ => {}
    }
}

// Writes a word and behind it the two ends of a range.
fn put_ends(word: &[u8], low: u32, high: u32, page: &mut Page<'_>)
    requires { Room (ends_of word.now low high) page.old }
    ensures { Written (ends_of word.now low high) page.old page.new }
{
    page.put_field(word, u64::from(low));
    page.put_field(b"..", u64::from(high));
}

// Writes the range that a number is outside of.
#[tactic(auto, using(std::proofs::lemmas::Bool::Decides::nat_tests), unfolding(crate::specs::Names::range_of))]
pub fn put_range(rule: Rule, page: &mut Page<'_>)
    requires { Room (range_of rule) page.old }
    ensures { Written (range_of rule) page.old page.new }
{
    match rule {
        Rule::Range(low, high) | Rule::Path(low, high) => put_ends(b", outside ", low, high, page),
        Rule::ZeroOr(low, high) => put_ends(b", neither 0 nor in ", low, high, page),
        Rule::Past => {}
    }
}
