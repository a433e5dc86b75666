// The call that doubles an image into a lent buffer.
ghost use Rattle.std.specs.Prelude.{◌≡◌, not, ◌+◌, ◌*◌, eqb, ltb, length, replicate};
ghost use Rattle.refusals.specs.Refusals.{refuse, ◌then◌, refusal_in};
ghost use Rattle.doubling.specs.Doubling.{double_of};
ghost use Rattle.doubling.specs.Answers.{doubled};

use crate::writing::write_image;
use checking::check;
use doubled::starts_of;
use image::sizes_of;
use refusals::{Condition, Refusal};

// 15 and 16, by the doubled size and the length of the lent buffer.
fn room_refusal(size: usize, length: usize) -> Result<(), Refusal>
    ensures { refusal_in result ≡ (refuse (ltb 8192 size) 15 0 then refuse (not (eqb length (8 + 7 * size))) 16 0) }
{
    if 8192 < size {
        return Err(Condition::DoubledNets.at(0));
    }
    if length != 8 + 7 * size {
        return Err(Condition::DoubledLength.at(0));
    }
    Ok(())
}

// The buffer takes the doubled netlist of an image. It turns back with 1 to 8, 15 and 16; and with 17, the buffer set to 0, where what was written is not accepted.
pub fn double(image: &[u8], buffer: &mut [u8]) -> Result<(), Refusal>
    ensures { doubled result buffer.new ≡ double_of image.now buffer.old }
{
    check(image)?;
    let z = sizes_of(image);
    let starts = starts_of(image, z.nets);
    let size = usize::from(starts[z.nets]);
    room_refusal(size, buffer.len())?;
    write_image(buffer, size, image, z, &starts);
    if check(buffer).is_err() {
        buffer.fill(0);
        return Err(Condition::DoubledImage.at(0));
    }
    Ok(())
}
