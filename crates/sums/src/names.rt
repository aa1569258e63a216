// The named rows of a sum.
ghost use Rattle.std.specs.Prelude.{◌≡◌, nat_lt};
ghost use Rattle.std.specs.List.{list_all};
ghost use Rattle.layouts.specs.Lists.{rises};
ghost use Rattle.sums.specs.Names.{numbers};
ghost use Rattle.sums.specs.Sums.{some_rising};

use layouts::RowNo;

// Each row is above the one before it.
fn rises(rows: &[RowNo]) -> bool
    ensures { result ≡ rises (numbers rows.now) }
{
    rows.is_sorted_by(|a, b| a.0 < b.0)
}

// Each row is below the count.
fn all_below(rows: &[RowNo], count: u16) -> bool
    ensures { result ≡ list_all (λ row. nat_lt row.0 count) rows.now }
{
    rows.iter().all(|row| row.0 < count)
}

// At least one row, each below the count and above the one before it.
#[tactic(auto, using(crate::proofs::Rising::named_by_parts))]
pub(crate) fn are_some_rising(rows: &[RowNo], count: u16) -> bool
    ensures { result ≡ some_rising count (numbers rows.now) }
{
    if rows.is_empty() {
        return false;
    }
    rises(rows) && all_below(rows, count)
}
