// The analysis: a sheet's bytes in, its refusal or its listing out.

#![tactic(auto)]

ghost use Rattle.std.specs.Prelude.{◌≡◌};
ghost use Rattle.search.specs.Point.{searched};
ghost use Rattle.search.specs.Searchable.{Searchable};
ghost use Rattle.row.specs.OfSheet.{formed_of};
ghost use Rattle.analysis.specs.Held.{row_held, judged};
ghost use Rattle.analysis.specs.Contract.{Analyse};

use fields::Refusal;
use row::Row;
use tandem::{Flow, Sheet};

// The listing of a sheet, for the answer record and the report: the bound, the start, the grid used, the number of groups; the watched flow
// and behind it the groups, each as one flow; and each group's wait.
#[derive(Clone, Copy)]
pub struct Analysed {
    pub bound: u64,
    pub start: u64,
    pub grid: usize,
    pub count: usize,
    pub groups: [Flow; 32],
    pub waits: [u64; 32],
}

// The listing of a row that passed the checks.
#[tactic(auto, unfolding(search::specs::Searchable::found_in))]
fn list_row(row: &Row) -> Analysed
    requires { Searchable row.now }
    ensures { result ≡ row_held row.now (searched row.now) }
{
    let found = search::search(row);
    let groups = row.groups;
    let waits = found.waits;
    Analysed {
        bound: found.bound,
        start: found.start,
        grid: row.grid,
        count: row.count - 1,
        groups,
        waits,
    }
}

// The analysis of a sheet's numbers.
fn judge(sheet: Sheet<'_>) -> Result<Analysed, Refusal>
    ensures { result ≡ judged (formed_of sheet.entry.numbers.now) }
{
    let row = row::row_of(sheet)?;
    Ok(list_row(&row))
}

// The analysis of a sheet: what is said of it, for every byte string.
#[tactic(auto, using(crate::proofs::Judging::analysed_read, crate::proofs::Judging::front_valid))]
pub fn analyse(bytes: &[u8]) -> Result<Analysed, Refusal>
    ensures { Analyse bytes.now result }
{
    let mut numbers = [0u32; 231];
    let n = sheet::read_sheet(bytes, &mut numbers)?;
    judge(Sheet {
        numbers: &numbers[..n],
    })
}
