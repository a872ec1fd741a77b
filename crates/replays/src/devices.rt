ghost use Rattle.std.specs.Prelude.{◌≡◌, IfOk};
ghost use Rattle.replays.specs.Devices.{device_state, BlankBench, ImageMade, ImageTwins, Twins};

use crate::benches::Bench;
use crate::rows::of_rows;
use bench::Plan;
use flash::{CHUNK_BYTES, Chip, Chunk, Fault, Look, Misfit, Place, Purpose, Record, Sizes};
use image::ImageChip;
use std::alloc::{AllocError, Global};

// A chip of either kind.
#[derive(Drop)]
pub enum Device {
    Bench(Bench),
    Image(ImageChip),
}

// The image chip of these bytes, with what is wrong with them.
pub(crate) fn image_chip(bytes: Vec<u8>) -> (ImageChip, Option<Misfit>)
    ensures { ImageMade bytes result }
{
    match ImageChip::new(bytes) {
        Ok(chip) => (chip, None),
        Err(unmade) => (unmade.chip, Some(unmade.why)),
    }
}

// The same image chip, and a copy of it that is on.
fn image_twins(chip: ImageChip, heap: Global) -> (ImageChip, Result<ImageChip, AllocError>)
    ensures { ImageTwins chip result }
{
    let bytes = chip.into_bytes();
    let copy = Vec::from_slice(heap, &bytes);
    let chip = image_chip(bytes).0;
    match copy {
        Ok(bytes) => {
            let mut twin = image_chip(bytes).0;
            twin.restart();
            (chip, Ok(twin))
        }
        Err(error) => (chip, Err(error)),
    }
}

impl Device {
    // A blank bench chip, off.
    pub(crate) fn bench(heap: Global, sizes: Sizes, plan: Plan) -> Result<Device, AllocError>
        ensures { IfOk result (BlankBench sizes plan) }
    {
        let rows = vec![in heap; Chunk::Blank; sizes.count()]?;
        Ok(Device::Bench(of_rows(rows, sizes, plan, false)))
    }

    pub(crate) fn is_on(&self) -> bool
        ensures { result ≡ (device_state self.now).on }
    {
        match self {
            Device::Bench(bench) => bench.chip.is_on(),
            Device::Image(chip) => chip.is_on(),
        }
    }

    // The same chip, and a copy of it that is on.
    pub(crate) fn twins(self, heap: Global) -> (Device, Result<Device, AllocError>)
        ensures { Twins self result }
    {
        match self {
            Device::Bench(bench) => {
                let (bench, twin) = bench.twins(heap);
                (Device::Bench(bench), twin.map(Device::Bench))
            }
            Device::Image(chip) => {
                let (chip, twin) = image_twins(chip, heap);
                (Device::Image(chip), twin.map(Device::Image))
            }
        }
    }
}

impl Chip for Device {
    ghost model = { device_state };

    fn sizes(&self) -> Sizes {
        match self {
            Device::Bench(bench) => bench.chip.sizes(),
            Device::Image(chip) => chip.sizes(),
        }
    }

    fn look(&self, at: Place) -> Result<Look, Fault> {
        match self {
            Device::Bench(bench) => bench.chip.look(at),
            Device::Image(chip) => chip.look(at),
        }
    }

    fn fetch(&self, at: Place, buffer: &mut [u8; CHUNK_BYTES]) -> Result<(), Fault> {
        match self {
            Device::Bench(bench) => bench.chip.fetch(at, buffer),
            Device::Image(chip) => chip.fetch(at, buffer),
        }
    }

    fn program(&mut self, purpose: Purpose, at: Place, record: &Record) -> Result<(), Fault> {
        match self {
            Device::Bench(bench) => bench.program(purpose, at, record),
            Device::Image(chip) => chip.program(purpose, at, record),
        }
    }

    fn erase(&mut self, block: u32) -> Result<(), Fault> {
        match self {
            Device::Bench(bench) => bench.erase(block),
            Device::Image(chip) => chip.erase(block),
        }
    }

    fn restart(&mut self) {
        match self {
            Device::Bench(bench) => bench.restart(),
            Device::Image(chip) => chip.restart(),
        }
    }
}
