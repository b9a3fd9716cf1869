// The row with its single flows: a valid sheet's servers and flows, the rates at each server, and check 7.

#![tactic(auto)]

ghost use Rattle.std.specs.Prelude.{◌≤◌, ◌<◌, length};
ghost use Rattle.sheet.specs.Valid.{Valid, server_count, flow_count};
ghost use Rattle.tandem.specs.OneValid.{one_valid};
ghost use Rattle.tandem.specs.OfSheet.{tandem_of};
ghost use Rattle.tandem.specs.Loads.{Roomy, Added};
ghost use Rattle.tandem.specs.Contract.{ServerCount, FlowCount, FlowTotal, ServerAt, CrossFlow, WatchedPlace, WatchedFlow, FlowAt};
ghost use Rattle.tandem.specs.Contract.{ListServers, ListFlows, LoadsOf, LowestCrowded};

// A server: its rate R in bytes a slot and its latency T in slots.
#[derive(Clone, Copy)]
pub struct Server {
    pub rate: u64,
    pub latency: u64,
}

// A flow: its first and last server, counted from 1, and its token bucket.
#[derive(Clone, Copy)]
pub struct Flow {
    pub first: usize,
    pub last: usize,
    pub burst: u64,
    pub rate: u64,
}

// The numbers of a valid sheet.
#[derive(Clone, Copy)]
pub struct Sheet<'a> {
    pub numbers: &'a [u32],
    ghost valid: { Valid numbers.now } by { one_valid numbers.now },
}

impl Sheet<'_> {
    // How many servers the row has.
    pub fn server_count(self) -> usize
        ensures { ServerCount self.entry.numbers.now result }
    {
        self.numbers[1] as usize
    }

    // How many cross flows the row has.
    pub fn flow_count(self) -> usize
        ensures { FlowCount self.entry.numbers.now result }
    {
        let at = fields::server_place(self.numbers[0], self.server_count(), 0);
        self.numbers[at] as usize
    }

    // How many flows the row has, the watched one included.
    #[tactic(auto, using(crate::proofs::OfSheetLaws::parts))]
    pub fn flow_total(self) -> usize
        ensures { FlowTotal self.entry.numbers.now result }
    {
        self.flow_count() + 1
    }

    // A server, counted from 0.
    pub fn server_at(self, j: usize) -> Server
        requires { j < server_count self.numbers.now }
        ensures { ServerAt self.entry.numbers.now j result }
    {
        let edition = self.numbers[0];
        Server {
            rate: u64::from(self.numbers[fields::server_place(edition, j, 0)]),
            latency: u64::from(self.numbers[fields::server_place(edition, j, 1)]),
        }
    }

    // A cross flow, counted from 0.
    pub fn cross_flow(self, k: usize) -> Flow
        requires { k < flow_count self.numbers.now }
        ensures { CrossFlow self.entry.numbers.now k result }
    {
        let at = fields::flow_place(self.numbers[0], self.server_count(), k);
        Flow {
            first: self.numbers[at] as usize,
            last: self.numbers[at + 1] as usize,
            burst: u64::from(self.numbers[at + 2]),
            rate: u64::from(self.numbers[at + 3]),
        }
    }

    // Where the watched flow's numbers begin; the mode and g stand behind its two.
    pub fn watched_place(self) -> usize
        ensures { WatchedPlace self.entry.numbers.now result }
    {
        fields::flow_place(self.numbers[0], self.server_count(), self.flow_count())
    }

    // The watched flow, which crosses all servers.
    pub fn watched_flow(self) -> Flow
        ensures { WatchedFlow self.entry.numbers.now result }
    {
        let at = self.watched_place();
        Flow {
            first: 1,
            last: self.server_count(),
            burst: u64::from(self.numbers[at]),
            rate: u64::from(self.numbers[at + 1]),
        }
    }

    // Flow f of the row: flow 0 is the watched one, and the cross flows follow.
    #[tactic(auto, using(crate::proofs::OfSheetLaws::parts))]
    pub fn flow_at(self, f: usize) -> Flow
        requires { f < length (tandem_of self.numbers.now).flows }
        ensures { FlowAt self.entry.numbers.now f result }
    {
        if f == 0 {
            self.watched_flow()
        } else {
            self.cross_flow(f - 1)
        }
    }

    // The servers into a lent list; what stands behind them stays.
    pub fn list_servers(self, servers: &mut [Server])
        requires { server_count self.numbers.now ≤ length servers.old }
        ensures { ListServers self.entry.numbers.now servers.old servers.new }
    {
        let n = self.server_count();
        for (j, server) in servers[..n].iter_mut().enumerate() {
            *server = self.server_at(j);
        }
    }

    // The flows into a lent list, the watched flow first; what stands behind them stays.
    pub fn list_flows(self, flows: &mut [Flow])
        requires { length (tandem_of self.numbers.now).flows ≤ length flows.old }
        ensures { ListFlows self.entry.numbers.now flows.old flows.new }
    {
        let n = self.flow_total();
        for (f, flow) in flows[..n].iter_mut().enumerate() {
            *flow = self.flow_at(f);
        }
    }

    // The rates at each server, the watched flow's included, added up.
    pub fn loads_of(self) -> [u64; 16]
        ensures { LoadsOf self.entry.numbers.now result }
    {
        let mut loads = [0u64; 16];
        for f in 0..self.flow_total() {
            add_load(&mut loads, self.flow_at(f));
        }
        loads
    }

    // Check 7: the lowest server whose rates sum above its own, if there is one.
    pub fn lowest_crowded(self) -> Option<usize>
        ensures { LowestCrowded self.entry.numbers.now result }
    {
        let n = self.server_count();
        let loads = self.loads_of();
        for (j, load) in loads[..n].iter().enumerate() {
            if self.server_at(j).rate < *load {
                return Some(j + 1);
            }
        }
        None
    }
}

// Adds a flow's rate at each server of its path.
fn add_load(loads: &mut [u64], flow: Flow)
    requires { (1 ≤ flow.first) × (flow.first ≤ flow.last) × (flow.last ≤ 16) × Roomy loads.old flow.rate }
    ensures { Added flow.first flow.last flow.rate loads.old loads.new }
{
    for load in &mut loads[flow.first - 1..flow.last] {
        *load += flow.rate;
    }
}
