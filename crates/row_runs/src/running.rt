// Whole rows are taken by one run. Where a byte is bad, the run turns back, and the rows before the row of that byte are run.
ghost use Rattle.row_runs.specs.Taking.{Lent, RowsTaken};

use refusals::{Refusal, refused};
use tracker::run;

// How many rows were run, and the refusal that the row after them draws. Both hold of one call, so this is no `Result`.
#[derive(Clone, Copy, PartialEq, Eq, Debug)]
pub struct RowsRun {
    pub good: usize,
    pub outcome: Result<(), Refusal>,
}

// At most 4,096 rows of `inputs` bytes each, with `each` output bytes a cycle. The place of a bad byte counts within its row.
// What is lent stands apart, as in `run`, by whose contract this one speaks.
pub fn run_rows(
    image: &[u8],
    inputs: usize,
    each: usize,
    k: usize,
    state: &mut [u8],
    rows: &[u8],
    outputs: &mut [u8],
) -> RowsRun
    requires { Lent image.now inputs each k state.old rows.now outputs.old }
    ensures { RowsTaken image.now inputs each k state.old rows.now result state.new outputs.new }
{
    match run(image, k, state, rows, outputs) {
        Ok(_) => RowsRun {
            good: k,
            outcome: Ok(()),
        },
        Err(r) => {
            let good = r.place / inputs;
            let end = good * inputs;
            let filled = good * each;
            let _ = run(image, good, state, &rows[..end], &mut outputs[..filled]);
            let outcome = refused(r.number, r.place - end);
            RowsRun { good, outcome }
        }
    }
}
