// Rows of costs: what the rest of a document costs, by the column where it begins.
ghost use Rattle.std.specs.Prelude.{◌≡◌, ◌+◌, ◌^◌, ◌<◌, ◌≤◌, ◌++◌, length, replicate};
ghost use Rattle.cost.specs.Chosen.{below};
ghost use Rattle.cost.specs.Price.{beats, cheaper};
ghost use Rattle.cost.specs.Row.{along};

use crate::price::Cost;
use doc::reserved::Pushed;

// The cost at a column; past the row's end each column is one byte more beyond the width.
pub fn along(row: &[Cost], column: usize) -> Cost
    requires { 0 < length row.now }
    ensures { result ≡ along row.now column }
{
    let last = row.len() - 1;
    if column <= last {
        row[column]
    } else {
        row[last].further(column - last)
    }
}

// Every column costs the same.
pub fn collapse(row: &mut [Cost], cost: Cost)
    ensures { row.new ≡ replicate (length row.old) cost }
{
    row.fill(cost);
}

// At each column the cheaper of two costs, the flat one where they are alike, with a note whether it is the broken one.
pub fn merge<N: Pushed<bool>>(
    broken: &mut [Cost],
    shift: usize,
    flat: &[Cost],
    reach: usize,
    notes: &mut N,
)
    requires some { 0 < length broken.old }
    requires few { length broken.old ≤ 256 }
    requires alike { length flat.now ≡ length broken.old }
    requires room { length (N.items notes.old) + length broken.old ≤ N.room notes.old }
    requires near { (shift ≤ 2 ^ 32) × (reach ≤ 2 ^ 32) }
    ensures row { broken.new ≡ below (λ c. cheaper (along flat.now (c + reach)) (along broken.old (c + shift))) (length broken.old) }
    ensures notes { N.items notes.new ≡ N.items notes.old ++ below (λ c. beats (along broken.old (c + shift)) (along flat.now (c + reach))) (length broken.old) }
    ensures capacity { N.room notes.new ≡ N.room notes.old }
{
    // By index, since each column is written while columns behind it are still to be read.
    for c in 0..broken.len() {
        let whole = along(flat, c + reach);
        let parted = along(broken, c + shift);
        let better = parted.beats(whole);
        notes.push(better);
        broken[c] = if better { parted } else { whole };
    }
}
