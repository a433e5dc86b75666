// The calls of the library for C and Rust: each call of the tracker under a plain name, with one number for its answer (include/tracker.h).
#![tactic(auto)]

ghost use Rattle.std.specs.Prelude.{◌≡◌};
ghost use Rattle.checking.specs.Check.{check_refusal};
ghost use Rattle.cycle.specs.Calls.{power_up_of, step_of, run_of};
ghost use Rattle.static_run.specs.StaticCalls.{static_power_up_of, static_run_of};
ghost use Rattle.figures.specs.Figures.{doubled_size_of};
ghost use Rattle.doubling.specs.Doubling.{double_of};
ghost use Rattle.paging.specs.Paging.{page_of};
ghost use Rattle.codes.specs.Codes.{outcome_code, page_code, verdict_code, first_flow_code, answer_code, size_code, kind_code};

use codes::{figure_code, kind_code, outcome_code, page_code, run_code, step_code};

// Whether an image is accepted.
pub fn tracker_check(image: &[u8]) -> u64
    ensures { result ≡ outcome_code (check_refusal image.now) }
{
    outcome_code(checking::check(image))
}

// Sets each register to its start, or, where none is given, to an untrusted 0.
pub fn tracker_power_up(image: &[u8], state: &mut [u8]) -> u64
    ensures value { result ≡ outcome_code (power_up_of image.now state.old).refusal }
    ensures state_after { state.new ≡ (power_up_of image.now state.old).state }
{
    outcome_code(tracker::power_up(image, state))
}

// One clock cycle.
pub fn tracker_step(image: &[u8], state: &mut [u8], row: &[u8], nets: &mut [u8]) -> u64
    ensures value { result ≡ answer_code verdict_code (step_of image.now state.old row.now nets.old).answer }
    ensures state_after { state.new ≡ (step_of image.now state.old row.now nets.old).state }
    ensures nets_after { nets.new ≡ (step_of image.now state.old row.now nets.old).nets }
{
    step_code(tracker::step(image, state, row, nets))
}

// k clock cycles.
pub fn tracker_run(image: &[u8], k: usize, state: &mut [u8], rows: &[u8], outputs: &mut [u8]) -> u64
    ensures value { result ≡ answer_code first_flow_code (run_of image.now state.old k rows.now outputs.old).answer }
    ensures state_after { state.new ≡ (run_of image.now state.old k rows.now outputs.old).state }
    ensures outputs_after { outputs.new ≡ (run_of image.now state.old k rows.now outputs.old).outputs }
{
    run_code(tracker::run(image, k, state, rows, outputs))
}

// Sets each register to its start, or, where none is given, to an unknown untrusted bit.
pub fn tracker_static_power_up(image: &[u8], state: &mut [u8]) -> u64
    ensures value { result ≡ outcome_code (static_power_up_of image.now state.old).refusal }
    ensures state_after { state.new ≡ (static_power_up_of image.now state.old).state }
{
    outcome_code(static_run::static_power_up(image, state))
}

// k clock cycles with unknown bits.
pub fn tracker_static_run(
    image: &[u8],
    k: usize,
    state: &mut [u8],
    rows: &[u8],
    outputs: &mut [u8],
) -> u64
    ensures value { result ≡ answer_code first_flow_code (static_run_of image.now state.old k rows.now outputs.old).answer }
    ensures state_after { state.new ≡ (static_run_of image.now state.old k rows.now outputs.old).state }
    ensures outputs_after { outputs.new ≡ (static_run_of image.now state.old k rows.now outputs.old).outputs }
{
    run_code(static_run::static_run(image, k, state, rows, outputs))
}

// The number of nets of the doubled netlist.
pub fn tracker_doubled_size(image: &[u8]) -> u64
    ensures { result ≡ size_code (doubled_size_of image.now) }
{
    let d = figures::doubled_size(image);
    figure_code(d.outcome, d.nets)
}

// The number of nets of one kind in the doubled netlist, which is 0 for a kind above 8.
pub fn tracker_doubled_kind(image: &[u8], kind: usize) -> u64
    ensures { result ≡ kind_code (doubled_size_of image.now) kind }
{
    let d = figures::doubled_size(image);
    kind_code(d.outcome, d.kinds, kind)
}

// The doubled netlist.
pub fn tracker_double(image: &[u8], buffer: &mut [u8]) -> u64
    ensures value { result ≡ outcome_code (double_of image.now buffer.old).refusal }
    ensures buffer_after { buffer.new ≡ (double_of image.now buffer.old).buffer }
{
    outcome_code(doubling::double(image, buffer))
}

// The pages of a run's outputs.
pub fn tracker_page(image: &[u8], k: usize, outputs: &[u8], page: &mut [u8]) -> u64
    ensures value { result ≡ page_code (page_of image.now k outputs.now page.old).refusal }
    ensures page_after { page.new ≡ (page_of image.now k outputs.now page.old).page }
{
    page_code(paging::page(image, k, outputs, page))
}
