// The verdict of a cycle, by its output bytes at the OUTs of its image.
ghost use Rattle.std.specs.Prelude.{◌≡◌, length};
ghost use Rattle.cycle.specs.Answers.{verdict_in};
ghost use Rattle.listing_cycles.specs.ByOutputs.{Known, verdict_by};

use cycle::Verdict;
use gates::mark_bit;
use image::operand_of;

// An accepted image, its I, which is not 0, and the list of its OUTs.
#[derive(Clone, Copy)]
pub struct Netlist<'a> {
    pub image: &'a [u8],
    pub inputs: usize,
    pub outs: &'a [u16],
    ghost known: { Known image.now inputs outs.now },
}

impl Netlist<'_> {
    // The verdict of a cycle, by its output bytes. Policy and mark are tested as one number, 3 where both are 1: by two branches the listing takes half as long
    // again where both are mixed.
    #[tactic(auto, unfolding(crate::specs::ByOutputs::verdict_by))]
    pub fn verdict_by(self, bytes: &[u8]) -> Verdict
        requires { length bytes.now ≡ length self.outs.now }
        ensures { verdict_in result ≡ verdict_by self.entry.image.now self.entry.outs.now bytes.now }
    {
        for (i, byte) in self.outs.iter().zip(bytes) {
            let i = usize::from(*i);
            if 2 * operand_of(self.image, i, 1) + usize::from(mark_bit(*byte)) == 3 {
                return Verdict::Flow(i);
            }
        }
        Verdict::Clear
    }
}
