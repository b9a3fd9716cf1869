// The row that is searched: its flows, whoever made them, put together into groups, and the checks that it must pass.

#![tactic(auto)]

ghost use Rattle.std.specs.Prelude.{◌≡◌, false, true, ◌&&◌, MatchResult, [], map, length, ◌^◌, ◌≤◌, ◌<◌, ltb, eqb};
ghost use Rattle.tandem.specs.Tandem.{size};
ghost use Rattle.tandem.specs.Lent.{row_in, Wide, Listed, Handed};
ghost use Rattle.row.specs.Groups.{from, grouped};
ghost use Rattle.row.specs.Checks.{not_nested};
ghost use Rattle.row.specs.RowFor.{row_for, formed_for};
ghost use Rattle.row.specs.OfSheet.{grid_of};
ghost use Rattle.row.specs.Parts.{Reached, overreached_by, place_of, Summed, with_group, with_groups, Listing};
ghost use Rattle.row.specs.OneReached.{one_reached};
ghost use Rattle.row.specs.Refused.{refusal_for};
ghost use Rattle.row.specs.Contract.{ReachesOf, IsNotNested, FormAsks, Form, RowOf};

use fields::{Refusal, Why};
use tandem::{Flow, Server, Sheet};

// A row: its servers; the watched flow, and behind it the groups in order, each as one flow; the mode; and the grid with 0 replaced by its meaning.
#[derive(Clone, Copy)]
pub struct Row {
    pub size: usize,
    pub servers: [Server; 16],
    // Kept: a count beside an array, since an `ArrayVec` can not be copied as a row is, and the rows' definitions speak of the two fields.
    pub count: usize,
    pub groups: [Flow; 32],
    // Kept: a number and no enum, since `Form` speaks of every mode number.
    pub mode: u32,
    pub grid: usize,
}

// Why a row is refused: two paths cross; the rates at a server, the lowest such, sum above its rate; the grid has too many points, for that many
// groups.
#[derive(Clone, Copy, PartialEq, Eq)]
pub enum Unfit {
    Crossing,
    Crowded(usize),
    Points(usize),
}

impl From<Unfit> for Refusal {
    ghost from_gives = { λ unfit refusal. refusal ≡ refusal_for unfit };

    fn from(unfit: Unfit) -> Refusal {
        let (why, at) = match unfit {
            Unfit::Crossing => (Why::Crossing, 0),
            Unfit::Crowded(server) => (Why::Crowded, server),
            Unfit::Points(groups) => (Why::Points, groups),
        };
        Refusal { why, at }
    }
}

// The bursts and the rates of a path's cross flows, added up.
#[derive(Clone, Copy)]
struct Sum {
    burst: u64,
    rate: u64,
}

// A row's servers and flows whose paths do not cross, and for each first server the furthest last one of the flows that begin there.
#[derive(Clone, Copy)]
struct Nested<'a> {
    servers: &'a [Server],
    flows: &'a [Flow],
    reaches: [usize; 18],
    ghost reached: { Reached (row_in [] flows.now) (length flows.now) reaches } by { one_reached (row_in [] flows.now) (length flows.now) reaches },
    ghost nested: { not_nested (row_in servers.now flows.now) ≡ false },
}

// What stands in an array behind its servers, and behind its flows.
const NO_SERVER: Server = Server {
    rate: 0,
    latency: 0,
};

const NO_FLOW: Flow = Flow {
    first: 0,
    last: 0,
    burst: 0,
    rate: 0,
};

// For each first server the furthest last one of the flows that begin there; 0 where none does.
pub fn reaches_of(flows: &[Flow]) -> [usize; 18]
    requires { Listed 16 flows.now }
    ensures { ReachesOf flows.now result }
{
    let mut reaches = [0usize; 18];
    for flow in flows {
        reaches[flow.first] = reaches[flow.first].max(flow.last);
    }
    reaches
}

// Whether some flow begins behind this one's first server, up to its last, and ends behind it.
fn is_overreached(flow: &Flow, reaches: &[usize]) -> bool
    requires { Wide 16 flow.now × (length reaches.now ≡ 18) }
    ensures { result ≡ overreached_by reaches.now flow.now }
{
    reaches[flow.first + 1..=flow.last]
        .iter()
        .any(|reach| flow.last < *reach)
}

// Check 6: whether two paths cross.
pub fn is_not_nested(flows: &[Flow], reaches: &[usize]) -> bool
    requires { Listed 16 flows.now × Reached (row_in [] flows.now) (length flows.now) reaches.now }
    ensures { IsNotNested flows.now result }
{
    flows.iter().any(|flow| is_overreached(flow, reaches))
}

// A path's number.
fn place_of(first: usize, last: usize) -> usize
    requires { (1 ≤ first) × (first ≤ 16) × (1 ≤ last) × (last ≤ 16) }
    ensures { result ≡ place_of first last }
{
    (first - 1) * 16 + (16 - last)
}

// The bursts and the rates of the cross flows added up for each path.
fn sums_of(flows: &[Flow]) -> [Sum; 256]
    requires { Listed 16 flows.now }
    ensures { Summed (row_in [] flows.now) (length flows.now) result }
{
    let mut sums = [Sum { burst: 0, rate: 0 }; 256];
    for flow in &flows[1..] {
        let sum = &mut sums[place_of(flow.first, flow.last)];
        sum.burst += flow.burst;
        sum.rate += flow.rate;
    }
    sums
}

// The grid of a row with n servers whose field is g.
fn grid_of(n: usize, g: u32) -> usize
    ensures { result ≡ grid_of n g }
{
    if g == 0 { 3 } else { g as usize }
}

// Whether a search over n groups has more than 65,536 points.
fn is_too_many(mode: u32, g: usize, n: u32) -> bool
    ensures { result ≡ (eqb mode 0 && ltb 65536 (g ^ n)) }
{
    mode == 0 && g.checked_pow(n).is_none_or(|points| 65536 < points)
}

impl Row {
    // One flow more, behind those that the row has: the watched one, or a group.
    fn push(&mut self, group: Flow)
        requires { self.old.count < 32 }
        ensures { self.new ≡ with_group self.old group }
    {
        self.groups[self.count] = group;
        self.count += 1;
    }
}

impl<'a> Nested<'a> {
    ghost use Rattle.row.specs.Held.{held};

    // Check 6: the servers and flows, unless two paths cross.
    fn of(servers: &'a [Server], flows: &'a [Flow]) -> Result<Nested<'a>, Unfit>
        requires { Listed 16 flows.now }
        ensures { MatchResult result (λ parts. held parts ≡ row_in servers.now flows.now)
            (λ unfit. (unfit ≡ Unfit.Crossing) × (not_nested (row_in servers.now flows.now) ≡ true)) }
    {
        let reaches = reaches_of(flows);
        if is_not_nested(flows, &reaches) {
            return Err(Unfit::Crossing);
        }
        Ok(Nested {
            servers,
            flows,
            reaches,
        })
    }

    // Lists the groups that begin at one server, the longest first, behind those that the row has.
    fn list_groups(&self, first: usize, sums: &[Sum], row: &mut Row)
        requires { Listing (held self.now) sums.now first row.old }
        ensures { row.new ≡ with_groups row.old (map (grouped (held self.now)) (from (held self.now) first (size (held self.now)))) }
    {
        for last in (first..=self.reaches[first]).rev() {
            let sum = sums[place_of(first, last)];
            if 0 < sum.rate {
                row.push(Flow {
                    first,
                    last,
                    burst: sum.burst,
                    rate: sum.rate,
                });
            }
        }
    }

    // The row: the watched flow, and behind it the groups from each first server on.
    fn row(&self, mode: u32, grid: usize) -> Row
        requires { Handed (held self.now) }
        ensures { result ≡ row_for (held self.now) mode grid }
    {
        let size = self.servers.len();
        let mut servers = [NO_SERVER; 16];
        servers[..size].copy_from_slice(self.servers);
        let mut row = Row {
            size,
            servers,
            count: 0,
            groups: [NO_FLOW; 32],
            mode,
            grid,
        };
        row.push(self.flows[0]);
        let sums = sums_of(self.flows);
        for first in 1..=size {
            self.list_groups(first, &sums, &mut row);
        }
        row
    }

    // Check 8 of a row whose rates fit, and the row.
    fn form(&self, mode: u32, grid: usize) -> Result<Row, Unfit>
        requires { Handed (held self.now) }
        ensures { result ≡ formed_for (held self.now) mode grid }
    {
        let row = self.row(mode, grid);
        let groups = row.count - 1;
        if is_too_many(mode, grid, groups as u32) {
            return Err(Unfit::Points(groups));
        }
        Ok(row)
    }
}

// Checks 6 and 8 of a row whose rates fit, and the row.
pub fn form(servers: &[Server], flows: &[Flow], mode: u32, grid: usize) -> Result<Row, Unfit>
    requires { FormAsks servers.now flows.now }
    ensures { Form servers.now flows.now mode grid result }
{
    Nested::of(servers, flows)?.form(mode, grid)
}

// Checks 6 to 8 of a valid sheet's row, and the row.
pub fn row_of(sheet: Sheet<'_>) -> Result<Row, Unfit>
    ensures { RowOf sheet.entry.numbers.now result }
{
    let size = sheet.server_count();
    let mut servers = [NO_SERVER; 16];
    sheet.list_servers(&mut servers);
    let mut flows = [NO_FLOW; 49];
    sheet.list_flows(&mut flows);
    let nested = Nested::of(&servers[..size], &flows[..sheet.flow_total()])?;
    if let Some(j) = sheet.lowest_crowded() {
        return Err(Unfit::Crowded(j));
    }
    let at = sheet.watched_place();
    let grid = grid_of(size, sheet.numbers[at + 3]);
    nested.form(sheet.numbers[at + 2], grid)
}
