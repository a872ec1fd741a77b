ghost use Rattle.texts.specs.Texts.{Adds};
ghost use Rattle.lines.specs.Heads.{head_line};

use flash::Sizes;
use std::alloc::AllocError;

// The line of a chip's sizes and power.
pub fn head_line(out: &mut String, sizes: Sizes, on: bool) -> Result<(), AllocError>
    ensures { Adds out.old (head_line sizes.blocks sizes.chunks on) result out.new }
{
    let Sizes { blocks, chunks } = sizes;
    let power = if on { "on" } else { "off" };
    writeln!(out, "{blocks} blocks of {chunks} chunks, {power}")
}
