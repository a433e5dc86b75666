// The bytes of one output in the cycles of a page.
ghost use Rattle.std.specs.Prelude.{◌≡◌, ◌+◌, ◌*◌, ◌≤◌, ◌<◌, length, get_or};
ghost use Rattle.page_text.specs.Pages.{output_bytes};

// Of the bytes of so many cycles, one for each output, those of one output.
#[derive(Clone, Copy)]
pub struct Column<'a> {
    pub bytes: &'a [u8],
    pub outputs: usize,
    pub output: usize,
    pub cycles: usize,
    ghost in_range: { (output < outputs) × (outputs ≤ 8192) × (cycles ≤ 64) × (cycles * outputs ≤ length bytes.now) },
}

impl<'a> Column<'a> {
    // The byte of cycle c.
    pub fn byte(self, c: usize) -> u8
        requires { c < self.cycles }
        ensures { result ≡ get_or (output_bytes self.entry.outputs self.entry.output self.entry.cycles self.entry.bytes.now) c 0 }
    {
        self.bytes[c * self.outputs + self.output]
    }
}
