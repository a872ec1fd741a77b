use crate::blocks::{count_blank, first_blank, is_blank, load, lowest_blank, scan};
use crate::chips::PlainChip;
use crate::mounting::{check_sizes, limit, verdict};
use crate::reading::{chunk, find, find_other, header, length, size, uses};
use crate::records::{Found, Kind, Name, is_object};
use crate::refusals::Refusal;
use flash::{Chunk, Place, Purpose, Record};
use std::alloc::Global;

// The chunks that a change programmed, and the blocks that it erased.
#[derive(Clone, Copy, PartialEq, Eq, Default, Debug)]
pub struct Cost {
    pub programs: u32,
    pub erases: u32,
}

// A row of the list.
#[derive(Clone, Copy, PartialEq, Eq, Default, Debug)]
pub struct Row {
    pub object: u32,
    pub length: u32,
    pub size: u64,
}

// A store keeps its chip and what the chunks do not tell: whether it runs, which block and which files are open.
#[derive(Drop)]
pub struct PlainStore {
    heap: Global,
    chip: PlainChip,
    runs: bool,
    open_block: Option<u32>,
    open_files: Vec<u32>,
}

impl PlainStore {
    // attach: the store is stopped.
    pub fn new(heap: Global, chip: PlainChip) -> PlainStore {
        PlainStore {
            heap,
            chip,
            runs: false,
            open_block: None,
            open_files: Vec::new(heap),
        }
    }

    pub fn release(self) -> PlainChip {
        self.chip
    }

    pub fn chip(&self) -> &PlainChip {
        &self.chip
    }

    pub fn runs(&self) -> bool {
        self.runs
    }

    pub fn is_open(&self, object: u32) -> bool {
        for one in self.open_files.iter() {
            if *one == object {
                return true;
            }
        }
        false
    }

    // format and mount

    pub fn format(&mut self) -> Result<(), Refusal> {
        self.stop_and_restart();
        check_sizes(self.chip.sizes())?;
        for block in 0..self.chip.sizes().blocks {
            if !is_blank(&self.chip, block) {
                self.chip.erase(block)?;
            }
        }
        Ok(())
    }

    pub fn mount(&mut self) -> Result<(), Refusal> {
        self.stop_and_restart();
        verdict(self.heap, &self.chip)?;
        self.runs = true;
        Ok(())
    }

    fn stop_and_restart(&mut self) {
        self.runs = false;
        self.open_block = None;
        self.open_files = Vec::new(self.heap);
        self.chip.restart();
    }

    // The checks that calls share.

    // Refusal 15, and otherwise all records.
    fn running(&self) -> Result<Vec<Found>, Refusal> {
        if !self.runs {
            return Err(Refusal::Number(15));
        }
        scan(self.heap, &self.chip)
    }

    // Refusal 16.
    fn check_object(object: u32) -> Result<(), Refusal> {
        if is_object(object) {
            Ok(())
        } else {
            Err(Refusal::Number(16))
        }
    }

    // Refusal 20, and otherwise the newest header.
    fn present(list: &[Found], object: u32) -> Result<Found, Refusal> {
        header(list, object).ok_or(Refusal::Number(20))
    }

    // Refusal 24.
    fn check_open(&self, object: u32) -> Result<(), Refusal> {
        if self.is_open(object) {
            Ok(())
        } else {
            Err(Refusal::Number(24))
        }
    }

    // Refusal 23.
    fn check_closed(&self, object: u32) -> Result<(), Refusal> {
        if self.is_open(object) {
            Err(Refusal::Number(23))
        } else {
            Ok(())
        }
    }

    // Refusal 22: another present file has the name.
    fn check_name(list: &[Found], name: &Name, object: u32) -> Result<(), Refusal> {
        match find_other(list, name, object) {
            Some(_) => Err(Refusal::Number(22)),
            None => Ok(()),
        }
    }

    // Refusal 26, and otherwise the serial one above the highest that stands.
    fn next_serial(list: &[Found]) -> Result<u32, Refusal> {
        let mut highest: u32 = 0;
        for one in list {
            highest = highest.max(one.serial);
        }
        highest.checked_add(1).ok_or(Refusal::Number(26))
    }

    // Refusal 27: the files would use so many chunks more.
    fn check_room(&self, list: &[Found], more: u64) -> Result<(), Refusal> {
        if uses(list).saturating_add(more) > limit(self.chip.sizes()) {
            return Err(Refusal::Number(27));
        }
        Ok(())
    }

    // The changes

    pub fn create(&mut self, object: u32, name: &[u8]) -> Result<Cost, Refusal> {
        let list = self.running()?;
        Self::check_object(object)?;
        let name = Name::new(name).ok_or(Refusal::Number(19))?;
        if header(&list, object).is_some() {
            return Err(Refusal::Number(21));
        }
        Self::check_name(&list, &name, object)?;
        let serial = Self::next_serial(&list)?;
        self.check_room(&list, 1)?;
        let tag = Kind::Cut { length: 0 }.tag(object, serial);
        self.add(&Record {
            tag,
            bytes: name.header_bytes(),
        })
    }

    pub fn put(&mut self, object: u32, j: u32, text: &[u8]) -> Result<Cost, Refusal> {
        let list = self.running()?;
        Self::check_object(object)?;
        if j < 1 || j > 1000 {
            return Err(Refusal::Number(17));
        }
        let count = text.len() as u64;
        if count < 1 || count > 2048 {
            return Err(Refusal::Number(18));
        }
        self.check_open(object)?;
        let serial = Self::next_serial(&list)?;
        let more = if chunk(&list, object, j).is_some() {
            0
        } else {
            1
        };
        self.check_room(&list, more)?;
        let tag = Kind::Data {
            chunk: j,
            count: count as u32,
        }
        .tag(object, serial);
        let mut bytes = [0; 2048];
        for (to, from) in bytes.iter_mut().zip(text) {
            *to = *from;
        }
        self.add(&Record { tag, bytes })
    }

    pub fn cut(&mut self, object: u32, n: u32) -> Result<Cost, Refusal> {
        let list = self.running()?;
        Self::check_object(object)?;
        if n > 1000 {
            return Err(Refusal::Number(17));
        }
        self.check_open(object)?;
        let now = length(&list, object).ok_or(Refusal::Stuck)?;
        if n >= now {
            return Err(Refusal::Number(25));
        }
        let serial = Self::next_serial(&list)?;
        let found = Self::present(&list, object)?;
        let name = found.name.ok_or(Refusal::Stuck)?;
        let tag = Kind::Cut { length: n }.tag(object, serial);
        self.add(&Record {
            tag,
            bytes: name.header_bytes(),
        })
    }

    pub fn rename(&mut self, object: u32, name: &[u8]) -> Result<Cost, Refusal> {
        let list = self.running()?;
        Self::check_object(object)?;
        let name = Name::new(name).ok_or(Refusal::Number(19))?;
        let now = length(&list, object).ok_or(Refusal::Number(20))?;
        Self::check_name(&list, &name, object)?;
        self.check_closed(object)?;
        let serial = Self::next_serial(&list)?;
        let tag = Kind::Header { length: now }.tag(object, serial);
        self.add(&Record {
            tag,
            bytes: name.header_bytes(),
        })
    }

    pub fn delete(&mut self, object: u32) -> Result<Cost, Refusal> {
        let list = self.running()?;
        Self::check_object(object)?;
        Self::present(&list, object)?;
        self.check_closed(object)?;
        let serial = Self::next_serial(&list)?;
        let tag = Kind::Marker.tag(object, serial);
        self.add(&Record {
            tag,
            bytes: [0; 2048],
        })
    }

    // Programs the record of a change.
    fn add(&mut self, record: &Record) -> Result<Cost, Refusal> {
        let mut cost = Cost::default();
        let place = self.find_place(&mut cost)?;
        self.program(Purpose::Adding, place, record)?;
        cost.programs = cost.programs.saturating_add(1);
        Ok(cost)
    }

    // Section 4

    // Programs a record; its block is open then, unless it is filled. Refusal 7 stops the store.
    fn program(&mut self, purpose: Purpose, at: Place, record: &Record) -> Result<(), Refusal> {
        if let Err(why) = self.chip.program(purpose, at, record) {
            self.runs = false;
            return Err(why);
        }
        let is_open = first_blank(&self.chip, at.block).is_some();
        self.open_block = if is_open { Some(at.block) } else { None };
        Ok(())
    }

    fn find_place(&mut self, cost: &mut Cost) -> Result<Place, Refusal> {
        for _ in 0..self.chip.sizes().blocks {
            if let Some(block) = self.open_block {
                return first_blank(&self.chip, block).ok_or(Refusal::Stuck);
            }
            if count_blank(&self.chip) >= 2 {
                let block = lowest_blank(&self.chip).ok_or(Refusal::Stuck)?;
                return Ok(Place { block, chunk: 0 });
            }
            let (_, copies) = self.clean()?;
            cost.programs = cost.programs.saturating_add(copies);
            cost.erases = cost.erases.saturating_add(1);
        }
        Err(Refusal::Stuck)
    }

    fn is_closed(&self, block: u32) -> bool {
        !is_blank(&self.chip, block) && self.open_block != Some(block)
    }

    // The closed block of least load, the lowest among equals, and its load.
    fn least(&self, list: &[Found]) -> Result<Option<(u32, Vec<Found>)>, Refusal> {
        let mut least: Option<(u32, Vec<Found>)> = None;
        for block in 0..self.chip.sizes().blocks {
            if self.is_closed(block) {
                let records = load(self.heap, list, block)?;
                let is_less = match &least {
                    Some((_, others)) => records.len() < others.len(),
                    None => true,
                };
                if is_less {
                    least = Some((block, records));
                }
            }
        }
        Ok(least)
    }

    // Cleans a block, and tells which, and the number of copies.
    fn clean(&mut self) -> Result<(u32, u32), Refusal> {
        let list = scan(self.heap, &self.chip)?;
        let (block, records) = self.least(&list)?.ok_or(Refusal::Stuck)?;
        let mut copies: u32 = 0;
        for one in records.iter() {
            let place = self.place_of_copy()?;
            let record = *self.chip.fetch(one.place)?;
            self.program(Purpose::Copying, place, &record)?;
            copies = copies.saturating_add(1);
        }
        if let Err(why) = self.chip.erase(block) {
            self.runs = false;
            return Err(why);
        }
        Ok((block, copies))
    }

    // The open block's first blank chunk; if no block is open, the lowest blank block opens.
    fn place_of_copy(&self) -> Result<Place, Refusal> {
        let block = match self.open_block {
            Some(block) => block,
            None => lowest_blank(&self.chip).ok_or(Refusal::Stuck)?,
        };
        first_blank(&self.chip, block).ok_or(Refusal::Stuck)
    }

    // The block and the number of copies.
    pub fn collect(&mut self) -> Result<(u32, u32), Refusal> {
        let list = self.running()?;
        let has_blank = lowest_blank(&self.chip).is_some();
        let is_worth = match self.least(&list)? {
            Some((_, records)) => (records.len() as u64) < self.chip.sizes().chunks as u64,
            None => false,
        };
        if has_blank && !is_worth {
            return Err(Refusal::Number(28));
        }
        self.clean()
    }

    // Tickets, by their object numbers

    pub fn open(&mut self, object: u32) -> Result<(), Refusal> {
        let list = self.running()?;
        Self::check_object(object)?;
        Self::present(&list, object)?;
        self.check_closed(object)?;
        self.open_files.push(object).map_err(|_| Refusal::Memory)
    }

    pub fn close(&mut self, object: u32) -> Result<(), Refusal> {
        self.check_open(object)?;
        self.open_files.retain(|one| *one != object);
        Ok(())
    }

    // The questions

    pub fn find(&self, name: &[u8]) -> Result<Option<u32>, Refusal> {
        let list = self.running()?;
        let name = Name::new(name).ok_or(Refusal::Number(19))?;
        Ok(find(&list, &name))
    }

    // The name of a file, which is refused as its size is.
    pub fn name(&self, object: u32) -> Result<Name, Refusal> {
        let list = self.running()?;
        Self::check_object(object)?;
        let found = Self::present(&list, object)?;
        found.name.ok_or(Refusal::Stuck)
    }

    pub fn size(&self, object: u32) -> Result<u64, Refusal> {
        let list = self.running()?;
        Self::check_object(object)?;
        size(&list, object).ok_or(Refusal::Number(20))
    }

    pub fn read(&self, object: u32, from: u64, buffer: &mut [u8]) -> Result<u64, Refusal> {
        let list = self.running()?;
        Self::check_object(object)?;
        let size = size(&list, object).ok_or(Refusal::Number(20))?;
        let mut count: u64 = 0;
        let mut j: u64 = 0;
        let mut found: Option<Found> = None;
        for byte in buffer.iter_mut() {
            let position = from.saturating_add(count);
            if position >= size {
                break;
            }
            // the chunk is looked for once for all its bytes
            if position / 2048 + 1 != j {
                j = position / 2048 + 1;
                found = chunk(&list, object, u32::try_from(j).unwrap_or(0));
            }
            *byte = self.byte(found, position % 2048);
            count = count.saturating_add(1);
        }
        Ok(count)
    }

    // A byte of a chunk: 0 where the chunk is missing, and past its byte count.
    fn byte(&self, found: Option<Found>, k: u64) -> u8 {
        let Some(
            Found {
                place,
                kind: Kind::Data { count, .. },
                ..
            },
        ) = found
        else {
            return 0
        };
        if k >= count as u64 {
            return 0;
        }
        match self.chip.chunk(place) {
            Some(Chunk::Holds(record)) => record.bytes.get(k as usize).copied().unwrap_or(0),
            _ => 0,
        }
    }

    pub fn list(&self, rows: &mut [Row]) -> Result<usize, Refusal> {
        let list = self.running()?;
        let mut files = Vec::new(self.heap);
        for object in 257..512 {
            if let (Some(length), Some(size)) = (length(&list, object), size(&list, object)) {
                files
                    .push(Row {
                        object,
                        length,
                        size,
                    })
                    .map_err(|_| Refusal::Memory)?;
            }
        }
        if rows.len() < files.len() {
            return Err(Refusal::Number(29));
        }
        for (to, from) in rows.iter_mut().zip(files.iter()) {
            *to = *from;
        }
        Ok(files.len())
    }
}
