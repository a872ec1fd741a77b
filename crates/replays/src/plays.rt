ghost use Rattle.std.specs.Prelude.{IfOk};
ghost use Rattle.replays.specs.Machines.{ImageSet, ImageLine, TwinTaken, DumpLine, SaveLine, BenchTaken, ChunkLine, ContentLine, PlanLine, BenchLine, SetupLine, LineAnswered, AttachLine, ReleaseLine, LifeLine, ChipLine, ChangeLine, AskLine};

use crate::answers::{Answer, Misuse};
use crate::benches::Bench;
use crate::calls::record;
use crate::devices::{Device, image_chip};
use crate::files::Files;
use crate::machines::{Machine, Stored};
use crate::saves::image_of;
use bench::Plan;
use flash::{Chip, Chunk, Fault, Place, Sizes};
use lines::chunks::chip_lines;
use scan::Refusal;
use scripts::{Ask, Change, ChipCall, Content, Life, Line, Misread, Setup, parse};
use std::alloc::{AllocError, Global};
use std::{mem, str};
use store::Store;

const NO_CHIP: Answer = Answer::Misuse(Misuse::NoChip);

const NO_STORE: Answer = Answer::Misuse(Misuse::NoStore);

// A copy of a chip that is on, and whether that is on.
#[derive(Drop)]
pub(crate) struct Twin {
    pub device: Device,
    pub on: bool,
}

impl Machine {
    // Makes an image chip of these bytes.
    fn set_image(&mut self, bytes: Vec<u8>) -> Answer
        ensures { ImageSet bytes result self.new }
    {
        let (chip, misfit) = image_chip(bytes);
        self.set(Machine::Chip(Device::Image(chip)));
        match misfit {
            None => Answer::Done,
            Some(why) => Answer::Unmade(why),
        }
    }

    // Makes an image chip of a file.
    fn image<F: Files>(&mut self, file: &[u8], files: &mut F) -> Answer
        ensures { ImageLine self.old result self.new }
    {
        match str::from_utf8(file).ok().and_then(|name| files.read(name)) {
            Some(bytes) => self.set_image(bytes),
            None => Answer::Misuse(Misuse::NoFile),
        }
    }

    // A copy of the chip that is on.
    fn twin(&mut self, heap: Global) -> Result<Option<Twin>, AllocError>
        ensures { TwinTaken self.old result self.new }
    {
        let Some(device) = self.take_chip() else {
            return Ok(None);
        };
        let on = device.is_on();
        let (device, copy) = device.twins(heap);
        self.set(Machine::Chip(device));
        Ok(Some(Twin { device: copy?, on }))
    }

    // The lines of all chunks.
    fn dump(&mut self, heap: Global) -> Result<Answer, AllocError>
        ensures { IfOk result (λ a. DumpLine self.old a self.new) }
    {
        let Some(twin) = self.twin(heap)? else {
            return Ok(NO_CHIP);
        };
        let mut lines = String::new(heap);
        chip_lines(&mut lines, &twin.device)?;
        Ok(Answer::Chunks(lines))
    }

    // Writes the image of the chip to a file.
    fn save<F: Files>(
        &mut self,
        heap: Global,
        file: &[u8],
        files: &mut F,
    ) -> Result<Answer, AllocError>
        ensures { IfOk result (λ a. SaveLine self.old a self.new) }
    {
        let Some(twin) = self.twin(heap)? else {
            return Ok(NO_CHIP);
        };
        let Some(bytes) = image_of(heap, &twin.device, twin.on)? else {
            return Ok(Answer::Misuse(Misuse::NoImage));
        };
        match str::from_utf8(file) {
            Ok(name) if files.write(name, &bytes) => Ok(Answer::Done),
            _ => Ok(Answer::Misuse(Misuse::NoFile)),
        }
    }

    // Takes the bench chip out, if there is one and it is in no store.
    fn take_bench(&mut self) -> Option<Bench>
        ensures { BenchTaken self.old result self.new }
    {
        match self.take_chip()? {
            Device::Bench(bench) => Some(bench),
            other => {
                self.set(Machine::Chip(other));
                None
            }
        }
    }

    // Sets a chunk of the bench chip.
    fn set_chunk(&mut self, at: Place, chunk: Chunk) -> Answer
        ensures { ChunkLine self.old at chunk result self.new }
    {
        let Some(bench) = self.take_bench() else {
            return Answer::Misuse(Misuse::NoBench);
        };
        if !bench.chip.sizes().has(at) {
            self.set(Machine::Chip(Device::Bench(bench)));
            return Answer::Refused(Refusal::Chip(Fault::NoSuchPlace));
        }
        self.set(Machine::Chip(Device::Bench(bench.with_chunk(at, chunk))));
        Answer::Done
    }

    fn content(
        &mut self,
        heap: Global,
        at: Place,
        content: Content<'_>,
    ) -> Result<Answer, AllocError>
        ensures { IfOk result (λ a. ContentLine self.old at content.entry a self.new) }
    {
        match content {
            Content::Blank => Ok(self.set_chunk(at, Chunk::Blank)),
            Content::Damaged => Ok(self.set_chunk(at, Chunk::Damaged)),
            Content::Holds { tag, data } => match record(heap, tag, data)? {
                Some(record) => Ok(self.set_chunk(at, Chunk::Holds(record))),
                None => Ok(Answer::Misuse(Misuse::TooLong)),
            },
        }
    }

    // Gives the bench chip another plan.
    fn plan(&mut self, plan: Plan) -> Answer
        ensures { PlanLine self.old plan result self.new }
    {
        let Some(bench) = self.take_bench() else {
            return Answer::Misuse(Misuse::NoBench);
        };
        self.set(Machine::Chip(Device::Bench(bench.planned(plan))));
        Answer::Done
    }

    fn bench(&mut self, heap: Global, sizes: Sizes, plan: Plan) -> Result<Answer, AllocError>
        ensures { IfOk result (λ a. BenchLine sizes plan a self.new) }
    {
        self.set(Machine::Chip(Device::bench(heap, sizes, plan)?));
        Ok(Answer::Done)
    }

    fn set_up<F: Files>(
        &mut self,
        heap: Global,
        setup: Setup<'_>,
        files: &mut F,
    ) -> Result<Answer, AllocError>
        ensures { IfOk result (λ a. SetupLine self.old setup.entry a self.new) }
    {
        match setup {
            Setup::Bench { sizes, plan } => self.bench(heap, sizes, plan),
            Setup::Plan(plan) => Ok(self.plan(plan)),
            Setup::Image { file } => Ok(self.image(file, files)),
            Setup::Chunk { at, content } => self.content(heap, at, content),
            Setup::Dump => self.dump(heap),
            Setup::Save { file } => self.save(heap, file, files),
        }
    }

    // Begins a store on the chip.
    fn attach(&mut self, heap: Global) -> Result<Answer, AllocError>
        ensures { IfOk result (λ a. AttachLine self.old a self.new) }
    {
        let Some(device) = self.take_chip() else {
            return Ok(NO_CHIP);
        };
        match Store::attach(heap, device) {
            Ok(store) => {
                let tickets = Vec::new(heap);
                self.set(Machine::Stored(Stored { store, tickets }));
                Ok(Answer::Done)
            }
            Err(unattached) => {
                self.set(Machine::Chip(unattached.chip));
                Err(AllocError)
            }
        }
    }

    // Ends the store; the chip is there again.
    fn release(&mut self) -> Answer
        ensures { ReleaseLine self.old result self.new }
    {
        match mem::replace(self, Machine::Empty) {
            Machine::Stored(stored) => {
                self.set(Machine::Chip(stored.release()));
                Answer::Done
            }
            other => {
                self.set(other);
                NO_STORE
            }
        }
    }

    fn format(&mut self) -> Answer
        ensures { LifeLine self.old Life.Format result self.new }
    {
        match self {
            Machine::Stored(stored) => stored.format(),
            Machine::Empty | Machine::Chip(_) => NO_STORE,
        }
    }

    fn mount(&mut self) -> Answer
        ensures { LifeLine self.old Life.Mount result self.new }
    {
        match self {
            Machine::Stored(stored) => stored.mount(),
            Machine::Empty | Machine::Chip(_) => NO_STORE,
        }
    }

    fn collect(&mut self) -> Answer
        ensures { LifeLine self.old Life.Collect result self.new }
    {
        match self {
            Machine::Stored(stored) => stored.collect(),
            Machine::Empty | Machine::Chip(_) => NO_STORE,
        }
    }

    fn live(&mut self, heap: Global, life: Life) -> Result<Answer, AllocError>
        ensures { IfOk result (λ a. LifeLine self.old life a self.new) }
    {
        match life {
            Life::Attach => self.attach(heap),
            Life::Release => Ok(self.release()),
            Life::Format => Ok(self.format()),
            Life::Mount => Ok(self.mount()),
            Life::Collect => Ok(self.collect()),
        }
    }

    fn call(&mut self, heap: Global, call: ChipCall<'_>) -> Result<Answer, AllocError>
        ensures { IfOk result (λ a. ChipLine self.old call.entry a self.new) }
    {
        match self {
            Machine::Chip(device) => device.answer(heap, call),
            Machine::Empty | Machine::Stored(_) => Ok(NO_CHIP),
        }
    }

    fn change(&mut self, heap: Global, change: Change<'_>) -> Result<Answer, AllocError>
        ensures { IfOk result (λ a. ChangeLine self.old change.entry a self.new) }
    {
        match self {
            Machine::Stored(stored) => stored.change(heap, change),
            Machine::Empty | Machine::Chip(_) => Ok(NO_STORE),
        }
    }

    fn ask(&mut self, heap: Global, ask: Ask<'_>) -> Result<Answer, AllocError>
        ensures { IfOk result (λ a. AskLine self.old ask.entry a self.new) }
    {
        match self {
            Machine::Stored(stored) => stored.ask(heap, ask),
            Machine::Empty | Machine::Chip(_) => Ok(NO_STORE),
        }
    }

    // What a line is answered.
    fn answer<F: Files>(
        &mut self,
        heap: Global,
        line: Line<'_>,
        files: &mut F,
    ) -> Result<Answer, AllocError>
        ensures { IfOk result (λ a. LineAnswered self.old line.entry a self.new) }
    {
        match line {
            Line::Setup(setup) => self.set_up(heap, setup, files),
            Line::Chip(call) => self.call(heap, call),
            Line::Life(life) => self.live(heap, life),
            Line::Change(change) => self.change(heap, change),
            Line::Ask(ask) => self.ask(heap, ask),
        }
    }

    // Plays a line of text, and adds its answer and an end of line to another; nothing where it is no more than a comment.
    pub fn play<F: Files>(
        &mut self,
        heap: Global,
        text: &str,
        files: &mut F,
        out: &mut String,
    ) -> Result<(), AllocError> {
        let answer = match parse(heap, text) {
            Ok(None) => return Ok(()),
            Ok(Some(line)) => self.answer(heap, line, files)?,
            Err(Misread::Memory) => return Err(AllocError),
            Err(misread) => Answer::Misread(misread),
        };
        answer.tell(out)?;
        writeln!(out)
    }
}

fn play_all<F: Files>(
    machine: &mut Machine,
    heap: Global,
    script: &str,
    files: &mut F,
    out: &mut String,
) -> Result<(), AllocError> {
    for line in script.lines() {
        machine.play(heap, line, files, out)?;
    }
    Ok(())
}

// The answers of a script, line by line.
pub fn replay<F: Files>(heap: Global, script: &str, files: &mut F) -> Result<String, AllocError> {
    let mut machine = Machine::new();
    let mut out = String::new(heap);
    let played = play_all(&mut machine, heap, script, files, &mut out);
    machine.end();
    played?;
    Ok(out)
}
