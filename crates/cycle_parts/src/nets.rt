// The bytes of all nets in a cycle.
ghost use Rattle.std.specs.Prelude.{◌≡◌, cond, ◌+◌, ◌*◌, ◌<◌, eqb, length, get_or};
ghost use Rattle.std.proofs.Math.Option.{none};
ghost use Rattle.gates.specs.Kinds.{INPUT, REG};
ghost use Rattle.gates.specs.Rules.{gate_byte};
ghost use Rattle.gates.specs.Table.{GateTable};
ghost use Rattle.image.specs.Image.{sizes_of, kind_at, net_at, nets_of};
ghost use Rattle.checking.specs.Check.{check_refusal};
ghost use Rattle.cycle.specs.Codes.{Low};
ghost use Rattle.cycle.specs.Cycle.{net_byte, bytes_of};
ghost use Rattle.cycle_parts.specs.Readable.{walk_at, Readable};

use crate::pins::pin_byte;
use gates::{Kind, gate_byte};
use image::{kind_of, operand_of};

// The row and the state of a cycle, and how many bytes of each are taken.
#[derive(Clone, Copy)]
struct Taken<'a> {
    row: &'a [u8],
    inputs: usize,
    state: &'a [u8],
    registers: usize,
}

impl<'a> Taken<'a> {
    // The next byte of the row.
    fn input(&mut self) -> u8
        requires { self.old.inputs < length self.old.row.now }
        ensures byte { result ≡ get_or self.old.row.now self.old.inputs 0 }
        ensures after { self.new ≡ record self.old { inputs = self.old.inputs + 1 } }
    {
        let byte = self.row[self.inputs];
        self.inputs += 1;
        byte
    }

    // The next byte of the state.
    fn register(&mut self) -> u8
        requires { self.old.registers < length self.old.state.now }
        ensures byte { result ≡ get_or self.old.state.now self.old.registers 0 }
        ensures after { self.new ≡ record self.old { registers = self.old.registers + 1 } }
    {
        let byte = self.state[self.registers];
        self.registers += 1;
        byte
    }
}

// The byte of net i. All nets below i have their bytes, and what these took of the row and the state is taken.
fn net_byte(image: &[u8], i: usize, t: &[u8; 576], taken: &mut Taken, nets: &[u8]) -> u8
    requires gate_table { GateTable t.now }
    requires i_bound { (i < (sizes_of image.now).nets) × (length image.now ≡ 8 + 7 * (sizes_of image.now).nets) × (length nets.now ≡ (sizes_of image.now).nets) }
    requires readable { Readable image.now (sizes_of image.now).nets taken.old.row.now taken.old.state.now nets.now i taken.old.inputs taken.old.registers }
    ensures byte_value { result
        ≡ net_byte gate_byte (net_at image.now (sizes_of image.now).nets i) (walk_at taken.old.row.now taken.old.state.now nets.now i taken.old.inputs taken.old.registers) }
    ensures taken_after { taken.new ≡ record taken.old {
      inputs = taken.old.inputs + cond (eqb (kind_at image.now i) INPUT) 1 0;
      registers = taken.old.registers + cond (eqb (kind_at image.now i) REG) 1 0;
    } }
{
    let kind = kind_of(image, i);
    let a = operand_of(image, i, 0);
    if kind >= Kind::Not as u8 {
        let b = operand_of(image, i, 1);
        let c = operand_of(image, i, 2);
        let x = pin_byte(nets, a);
        let y = pin_byte(nets, b);
        let z = pin_byte(nets, c);
        gate_byte(t, kind, x, y, z)
    } else if kind == Kind::Input as u8 {
        taken.input()
    } else if kind == Kind::Reg as u8 {
        taken.register()
    } else {
        a as u8
    }
}

// The bytes of all nets, in net order: the row's for INPUTs, the state's for REGs, and a code of the table for gates and OUTs.
pub fn work_out(image: &[u8], n: usize, t: &[u8; 576], row: &[u8], state: &[u8], nets: &mut [u8])
    requires gate_table { GateTable t.now × (check_refusal image.now ≡ none) × (n ≡ (sizes_of image.now).nets) }
    requires row_len { (length row.now ≡ (sizes_of image.now).inputs) × (length state.now ≡ (sizes_of image.now).registers) × (length nets.old ≡ n) }
    requires low { Low row.now × Low state.now }
    ensures { nets.new ≡ bytes_of gate_byte (nets_of image.now) row.now state.now }
{
    // Operand b of an OUT is its policy, 0 or 1, and is read as if it were a pin. So an OUT at net 1 may read net 1 itself, which
    // has to hold a byte 0 to 3; the code that is read for an OUT does not depend on it.
    if 1 < n {
        nets[1] = 0;
    }
    let mut taken = Taken {
        row,
        inputs: 0,
        state,
        registers: 0,
    };
    for i in 0..n {
        let byte = net_byte(image, i, t, &mut taken, nets);
        nets[i] = byte;
    }
}
