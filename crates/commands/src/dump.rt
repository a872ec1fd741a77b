ghost use Rattle.commands.specs.Dumps.{Dumped};

use flash::Chip;
use image::ImageChip;
use lines::chunks::chip_lines;
use lines::heads::head_line;
use std::alloc::Global;
use texts::stops::Stop;

// What the chip in an image is: sizes and power, and a line for each chunk. An image that is off is read all the same.
pub fn dump(heap: Global, bytes: Vec<u8>) -> Result<String, Stop>
    ensures { Dumped bytes.items result }
{
    let mut chip = ImageChip::new(bytes)?;
    let mut out = String::new(heap);
    head_line(&mut out, chip.sizes(), chip.is_on())?;
    chip.restart();
    chip_lines(&mut out, &chip)?;
    Ok(out)
}
