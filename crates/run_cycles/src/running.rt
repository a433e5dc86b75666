// The cycles of a run, by lists that are made once. The bytes of the nets stand with their inverses in one local array: of n nets in the first n places and
// in the n places from 32,768 on.
ghost use Rattle.std.specs.Prelude.{Ok, ◌≡◌, ◌⊎◌, length, take, ◌*◌, ◌≤◌};
ghost use Rattle.unknowns.specs.Widths.{rule_by};
ghost use Rattle.image.specs.Image.{sizes_of, nets_of};
ghost use Rattle.cycle.specs.Answers.{verdict_in, first_flow_in, ran};
ghost use Rattle.cycle.specs.Cycle.{bytes_of, cycle_of, cycles_of, first_of};
ghost use Rattle.cycle.specs.Calls.{as_run};
ghost use Rattle.settling.specs.Settling.{Prepared};
ghost use Rattle.run_cycles.specs.Taking.{rules_by, Takes, Made};

use cycle::{FirstFlow, Verdict};
use gates::table;
use image::sizes_of;
use lists::{Parts, clock_listed, find_parts, first_listed, put_bytes, take_bytes};
use settling::{set_constants, settle_nets};
use unknowns::wide_table_for;

// What a run makes once, for all its cycles: the image with its lists and where these begin and end, and the tables with the width of the one that it goes by.
#[derive(Clone, Copy)]
struct Run<'a> {
    image: &'a [u8],
    parts: Parts,
    list: &'a [u16],
    protected: &'a [u16],
    plain: &'a [u8],
    wide: &'a [u8],
    width: usize,
}

impl<'a> Run<'a> {
    // The bytes of all nets in a cycle: the INPUTs take the row's and the REGs the state's, and then the gates are settled.
    fn work_out_listed(&self, row: &[u8], state: &[u8], nets: &mut [u8])
        requires made { Made self.now }
        requires takes { Takes self.now.width self.now.image.now state.now (sizes_of self.now.image.now).inputs row.now }
        requires ready { (length nets.old ≡ 40960) × Prepared self.now.width self.now.image.now nets.old (sizes_of self.now.image.now).nets }
        ensures nets_after { take (sizes_of self.now.image.now).nets nets.new ≡ bytes_of (rule_by self.now.width) (nets_of self.now.image.now) row.now state.now }
        ensures prepared { Prepared self.now.width self.now.image.now nets.new (sizes_of self.now.image.now).nets }
    {
        let p = self.parts;
        let inputs = &self.list[..p.regs];
        let registers = &self.list[p.regs..p.outs];
        put_bytes(self.width, inputs, row, nets);
        put_bytes(self.width, registers, state, nets);
        settle_nets(self.image, self.plain, self.wide, self.width, p.from, nets);
    }

    // Cycle c of a run: all nets are worked out, then the verdict is given, unless an earlier cycle had a flow; the outputs are written, and
    // then the registers are clocked.
    fn cycle(
        &self,
        earlier: FirstFlow,
        c: usize,
        row: &[u8],
        state: &mut [u8],
        nets: &mut [u8],
        outputs: &mut [u8],
    ) -> FirstFlow
        requires made { Made self.now }
        requires takes { Takes self.now.width self.now.image.now state.old (sizes_of self.now.image.now).inputs row.now }
        requires ready { (length nets.old ≡ 40960) × Prepared self.now.width self.now.image.now nets.old (sizes_of self.now.image.now).nets }
        requires outputs_len { length outputs.old ≡ (sizes_of self.now.image.now).outputs }
        ensures result_value { first_flow_in result
            ≡ first_of earlier.cycle (verdict_in earlier.verdict)
            (first_of c (cycle_of (rules_by self.now.width) (nets_of self.now.image.now) row.now state.old).verdict (first_flow_in earlier)) }
        ensures outputs_after { outputs.new ≡ (cycle_of (rules_by self.now.width) (nets_of self.now.image.now) row.now state.old).outputs }
        ensures state_after { state.new ≡ (cycle_of (rules_by self.now.width) (nets_of self.now.image.now) row.now state.old).state }
        ensures nets_prepared { Prepared self.now.width self.now.image.now nets.new (sizes_of self.now.image.now).nets }
    {
        self.work_out_listed(row, state, nets);
        let p = self.parts;
        let registers = &self.list[p.regs..p.outs];
        let outs = &self.list[p.outs..p.end];
        let first = first_listed(earlier, c, &self.protected[..p.watched], nets);
        take_bytes(outs, nets, outputs);
        clock_listed(self.image, registers, nets, state);
        first
    }
}

// The k cycles of an accepted run, by the table of that width, each on its own part of the rows and of the outputs.
pub fn cycles(
    image: &[u8],
    width: usize,
    k: usize,
    state: &mut [u8],
    rows: &[u8],
    outputs: &mut [u8],
) -> FirstFlow
    requires width_is { (width ≡ 4) ⊎ (width ≡ 8) }
    requires takes { Takes width image.now state.old (k * (sizes_of image.now).inputs) rows.now }
    requires k_bound { (k ≤ 4096) × (length outputs.old ≡ k * (sizes_of image.now).outputs) }
    ensures { ran (Ok result) state.new outputs.new
        ≡ as_run state.old (cycles_of (rules_by width) (nets_of image.now) (sizes_of image.now).inputs k rows.now state.old) }
{
    let z = sizes_of(image);
    let plain = table();
    let wide = wide_table_for(width);
    let mut list = [0u16; 8192];
    let mut protected = [0u16; 8192];
    let mut nets = [0u8; 40960];
    let parts = find_parts(image, &mut list, &mut protected);
    set_constants(image, z.nets, &mut nets);
    let run = Run {
        image,
        parts,
        list: &list,
        protected: &protected,
        plain: &plain,
        wide: &wide,
        width,
    };
    let mut first = FirstFlow {
        cycle: k,
        verdict: Verdict::Clear,
    };
    for c in 0..k {
        let row = c * z.inputs;
        let out = c * z.outputs;
        first = run.cycle(
            first,
            c,
            &rows[row..row + z.inputs],
            state,
            &mut nets,
            &mut outputs[out..out + z.outputs],
        );
    }
    first
}
