ghost use Rattle.std.specs.Prelude.{◌≡◌, IfErr, MatchResult, Some, string_bytes};
ghost use Rattle.opening.specs.Opening.{NotAttached};
ghost use Rattle.texts.specs.declared.stops.Stop.TheVariants.{Memory};
ghost use Rattle.files.specs.Info.{totals_text, MountTold, IsInfo};

use flash::Chip;
use image::ImageChip;
use lines::heads::head_line;
use questions::Totals;
use std::alloc::Global;
use std::fmt;
use store::Store;
use texts::stops::Stop;

// What there is in all on a chip of so many blocks that was just mounted.
#[derive(Clone, Copy)]
struct Summary {
    totals: Totals,
    blocks: u32,
}

impl fmt::Display for Summary {
    ghost output = { λ x. Some (totals_text x.totals x.blocks) };

    fn fmt<W: fmt::Write>(&self, f: &mut fmt::Formatter<W>) -> fmt::Result {
        let Totals {
            files,
            used,
            limit,
            blank,
            serial,
        } = self.totals;
        // a mount leaves every other block closed
        let closed = (self.blocks as usize).saturating_sub(blank);
        writeln!(f, "files: {files}")?;
        writeln!(f, "chunks used: {used} of {limit}")?;
        writeln!(f, "blocks: {blank} blank, {closed} closed")?;
        writeln!(f, "highest serial: {serial}")
    }
}

// Mounts the store and tells what comes.
fn mount_lines(out: &mut String, store: &mut Store<ImageChip>, blocks: u32) -> Result<(), Stop>
    ensures told { MountTold store.old blocks (string_bytes out.old) result (string_bytes out.new) }
    ensures memory { IfErr result (λ e. e ≡ Memory) }
{
    match store.mount() {
        Ok(()) => {
            let totals = store.count_all()?;
            Ok(write!(out, "mount: accepted\n{}", Summary { totals, blocks })?)
        }
        Err(refusal) => Ok(writeln!(out, "mount: refused: {refusal}")?),
    }
}

// What an image is as a whole: sizes and power, whether a mount accepts it, and then what there is in all.
pub fn info(heap: Global, bytes: Vec<u8>) -> Result<String, Stop>
    ensures { MatchResult result (λ v. IsInfo bytes.items (string_bytes v)) (λ why. NotAttached bytes.items why) }
{
    let chip = ImageChip::new(bytes)?;
    let sizes = chip.sizes();
    let mut out = String::new(heap);
    head_line(&mut out, sizes, chip.is_on())?;
    let Ok(mut store) = Store::attach(heap, chip) else {
        return Err(Stop::Memory);
    };
    mount_lines(&mut out, &mut store, sizes.blocks)?;
    Ok(out)
}
