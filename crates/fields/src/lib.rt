// The fields of a sheet: the rule of each, a cursor over them, one step over a field, and the numbers of all refusals.

#![tactic(auto)]

ghost use Rattle.std.specs.Prelude.{◌≡◌, ◌<◌};
ghost use Rattle.std.specs.Result.{result_map_both};
ghost use Rattle.fields.specs.Rule.{mode_rule, allowed, why_outside, is_past};
ghost use Rattle.fields.specs.Cursor.{standing};
ghost use Rattle.fields.specs.Step.{step_on};
ghost use Rattle.fields.specs.Refusal.{why_of, refused};
ghost use Rattle.fields.specs.Contract.{PerServer, ServerPlace, FlowPlace, FieldRule, Start, After, StepOn, RefusalOf};

use numbers::Fault;

// Whose rule it is: the reader's or the writer's.
#[derive(Clone, Copy, PartialEq, Eq)]
pub enum User {
    Reader,
    Writer,
}

// What a field may hold: a range; a range of servers; 0 or a range. Behind the last field there is none.
#[derive(Clone, Copy, PartialEq, Eq)]
pub enum Rule {
    Range(u32, u32),
    Path(u32, u32),
    ZeroOr(u32, u32),
    Past,
}

// Where a walk over the fields stands: the field's number in document 01's table, from 0; how many servers or cross flows are left, this one
// included; N once it is known; and the field's rule.
// Kept: the field is a number, since a place behind the last field has one too, and the names of the fields go by it.
#[derive(Clone, Copy, PartialEq, Eq)]
pub struct Cursor {
    pub field: usize,
    pub left: u32,
    pub servers: u32,
    pub rule: Rule,
}

// Why a sheet or its analysis is refused; specs/Refusal.antt gives document 01's number and words of each, in this order.
#[derive(Clone, Copy, PartialEq, Eq)]
pub enum Why {
    Ends,
    Padded,
    Large,
    Left,
    Outside,
    OffPath,
    Crossing,
    Crowded,
    Points,
    TooLarge,
    Short,
}

// A refusal, and its detail: a place in the sheet, or what else document 01 says for it.
#[derive(Clone, Copy, PartialEq, Eq)]
pub struct Refusal {
    pub why: Why,
    pub at: usize,
}

impl From<Fault> for Why {
    ghost from_gives = { λ f w. w ≡ why_of f };

    fn from(fault: Fault) -> Why {
        match fault {
            Fault::Ends => Why::Ends,
            Fault::Padded => Why::Padded,
            Fault::Large => Why::Large,
        }
    }
}

// How many numbers a server takes in an edition.
pub fn per_server(edition: u32) -> usize
    ensures { PerServer edition result }
{
    let rate_and_latency = 2;
    rate_and_latency
}

// Where number c of server j stands, both counted from 0; the number of cross flows stands where the first of one server more would.
pub fn server_place(edition: u32, j: usize, c: usize) -> usize
    requires { (j < 4294967296) × (c < 4294967296) }
    ensures { ServerPlace edition j c result }
{
    2 + c + per_server(edition) * j
}

// Where the numbers of flow k begin, counted from 0, behind so many servers; the watched flow's begin where those of one cross flow more would.
pub fn flow_place(edition: u32, servers: usize, k: usize) -> usize
    requires { (servers < 4294967296) × (k < 4294967296) }
    ensures { FlowPlace edition servers k result }
{
    server_place(edition, servers, 1) + 4 * k
}

// The rule of the mode, the one field whose rule may differ between users.
fn mode_rule(user: User) -> Rule
    ensures { result ≡ mode_rule user }
{
    match user {
        User::Reader | User::Writer => Rule::Range(0, 1),
    }
}

// The rule of a field by its number, from N and the number before it.
pub fn field_rule(user: User, field: usize, servers: u32, prev: u32) -> Rule
    ensures { FieldRule user field servers prev result }
{
    match field {
        0 => Rule::Range(1, 1),
        1 => Rule::Range(1, 16),
        2 => Rule::Range(1, 1000000),
        3 => Rule::Range(0, 1000),
        4 => Rule::Range(0, 48),
        5 => Rule::Path(1, servers),
        6 => Rule::Path(prev, servers),
        7 => Rule::Range(0, 65535),
        8 => Rule::Range(1, 65535),
        9 => Rule::Range(0, 65535),
        10 => Rule::Range(1, 65535),
        11 => mode_rule(user),
        12 => Rule::ZeroOr(2, 9),
        _ => Rule::Past,
    }
}

impl Cursor {
    // A cursor at a field, with so many servers or flows left, N, and the number before it.
    fn at_field(user: User, field: usize, left: u32, servers: u32, prev: u32) -> Cursor
        ensures { result ≡ standing user field left servers prev }
    {
        Cursor {
            field,
            left,
            servers,
            rule: field_rule(user, field, servers, prev),
        }
    }

    // A cursor at the first field.
    #[tactic(auto, unfolding(crate::specs::Rule::field_at, crate::specs::Rule::rule_at, crate::specs::Cursor::left_at))]
    pub fn start(user: User) -> Cursor
        ensures { Start user result }
    {
        Cursor::at_field(user, 0, 0, 0, 0)
    }

    // The cursor once x has been passed: at the next field, or at the first field of the next server or flow.
    #[tactic(auto, unfolding(crate::specs::Cursor::cursor_after))]
    pub fn after(self, user: User, x: u32) -> Cursor
        ensures { After user self x result }
    {
        let Cursor {
            field,
            left,
            servers,
            ..
        } = self;
        // Kept: a line for each field, as in the table; with one arm for all that go on to the next field a read takes a sixth more instructions.
        match field {
            0 => Cursor::at_field(user, 1, left, servers, x),
            1 => Cursor::at_field(user, 2, x, x, x),
            2 => Cursor::at_field(user, 3, left, servers, x),
            3 if 1 < left => Cursor::at_field(user, 2, left - 1, servers, x),
            3 => Cursor::at_field(user, 4, 0, servers, x),
            4 if 0 < x => Cursor::at_field(user, 5, x, servers, x),
            4 => Cursor::at_field(user, 9, 0, servers, x),
            5 => Cursor::at_field(user, 6, left, servers, x),
            6 => Cursor::at_field(user, 7, left, servers, x),
            7 => Cursor::at_field(user, 8, left, servers, x),
            8 if 1 < left => Cursor::at_field(user, 5, left - 1, servers, x),
            8 => Cursor::at_field(user, 9, 0, servers, x),
            9 => Cursor::at_field(user, 10, left, servers, x),
            10 => Cursor::at_field(user, 11, left, servers, x),
            11 => Cursor::at_field(user, 12, left, servers, x),
            _ => Cursor::at_field(user, 13, left, servers, x),
        }
    }
}

impl Rule {
    // Whether the rule admits x.
    fn allows(self, x: u32) -> bool
        ensures { result ≡ allowed self x }
    {
        match self {
            Rule::Range(low, high) | Rule::Path(low, high) => low <= x && x <= high,
            Rule::ZeroOr(low, high) => x == 0 || low <= x && x <= high,
            Rule::Past => false,
        }
    }

    // Why a number that the rule does not admit is refused.
    fn outside(self) -> Why
        ensures { result ≡ why_outside self }
    {
        match self {
            Rule::Range(_, _) | Rule::ZeroOr(_, _) => Why::Outside,
            Rule::Path(_, _) => Why::OffPath,
            Rule::Past => Why::Left,
        }
    }

    // Whether the sheet's fields have ended.
    fn is_past(self) -> bool
        ensures { result ≡ is_past self }
    {
        matches!(self, Rule::Past)
    }
}

// One field, from what was got at a place of a source with that size: a number that its rule admits, with the place behind it; nothing at the
// end of the sheet; or why it is refused.
#[tactic(auto, unfolding(crate::specs::Step::step_on))]
fn judge(
    got: Result<(u32, usize), Fault>,
    size: usize,
    at: usize,
    rule: Rule,
) -> Result<Option<(u32, usize)>, Why>
    ensures { result_map_both (λ value. value) (λ why. refused why at) result ≡ step_on got size at rule }
{
    if rule.is_past() {
        return if at < size { Err(Why::Left) } else { Ok(None) };
    }
    let (x, next) = got?;
    if rule.allows(x) {
        Ok(Some((x, next)))
    } else {
        Err(rule.outside())
    }
}

// One step, for the reader and the writer alike: one field, where a refusal names the place at which the field begins.
pub fn step_on(
    got: Result<(u32, usize), Fault>,
    size: usize,
    at: usize,
    rule: Rule,
) -> Result<Option<(u32, usize)>, Refusal>
    ensures { StepOn got size at rule result }
{
    judge(got, size, at, rule).map_err(|why| Refusal { why, at })
}

// Document 01's number of a refusal.
// Kept: a match, since two reasons have the number 2, and the numbers of variants differ.
pub fn refusal_of(why: Why) -> u32
    ensures { RefusalOf why result }
{
    match why {
        Why::Ends => 1,
        Why::Padded | Why::Large => 2,
        Why::Left => 3,
        Why::Outside => 4,
        Why::OffPath => 5,
        Why::Crossing => 6,
        Why::Crowded => 7,
        Why::Points => 8,
        Why::TooLarge => 9,
        Why::Short => 10,
    }
}
