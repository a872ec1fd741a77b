ghost use Rattle.std.specs.Prelude.{◌≡◌};
ghost use Rattle.std.specs.Option.{option_to_list};
ghost use Rattle.rules.specs.Records.{rules_by, keeps_rules};
ghost use Rattle.names.specs.Names.{entries_of};
ghost use Rattle.scan.specs.Chips.{chip_of};
ghost use Rattle.scan.specs.Checks.{FirstNoted, RowChecked, RowsChecked};

use crate::refusals::Refusal;
use crate::tables::{Entry, Scan};
use flash::{Chip, Fault, Tag};
use names::Names;
use rules::{
    CHUNK_BYTES, FIRST_OBJECT, Kind, LAST_NUMBER, LAST_OBJECT, LONGEST_NAME, OBJECT_BASE, is_object,
};
use table::in_file;
use tags::{kind_of, object_of};

// The rules of a record of this kind, by its numbers and the first byte of its data, if that was read.
fn rules_by(kind: Kind, tag: &Tag, first: Option<u8>) -> bool
    ensures { result ≡ rules_by (record { tag = tag.now; bytes = option_to_list first }) kind }
{
    let heads = (OBJECT_BASE + FIRST_OBJECT..=OBJECT_BASE + LAST_OBJECT).contains(&tag.second);
    match kind {
        Kind::Data => {
            (1..=LAST_NUMBER).contains(&tag.first)
                && is_object(tag.second)
                && (1..=CHUNK_BYTES).contains(&(tag.third as usize))
        }
        Kind::Header | Kind::CutHeader => {
            heads
                && tag.third <= LAST_NUMBER
                && first.is_some_and(|length| (1..=LONGEST_NAME).contains(&usize::from(length)))
        }
        Kind::Marker => heads && tag.third == 0,
        Kind::Other => false,
    }
}

// Whether a record keeps the rules; the first byte of its data counts for headers alone.
#[tactic(auto, unfolding(rules::specs::Records::keeps_rules, rules::specs::Records::kind))]
fn keeps_rules(tag: &Tag, first: Option<u8>) -> bool
    ensures { result ≡ keeps_rules (record { tag = tag.now; bytes = option_to_list first }) }
{
    tag.serial != 0 && rules_by(kind_of(tag), tag, first)
}

impl<C: Chip> Entry<'_, '_, C> {
    // Notes the name in a header that is its file's, and tells the first byte of its data; other records' data stay unread.
    fn first_byte(&self, names: &mut Names) -> Result<Option<u8>, Fault>
        ensures { FirstNoted (chip_of self.now.scan.now) self.now.scan.now.rows.now self.now.row self.now.tag (entries_of names.old) result (entries_of names.new) }
    {
        if !kind_of(&self.tag).is_header() {
            return Ok(None);
        }
        let mut data = [0; CHUNK_BYTES];
        self.read(&mut data)?;
        if in_file(self.scan.rows, &self.tag) {
            names.note(object_of(&self.tag), &data);
        }
        Ok(Some(data[0]))
    }

    // Checks the record, and notes its name.
    fn check(&self, names: &mut Names) -> Result<(), Refusal>
        ensures { RowChecked (chip_of self.now.scan.now) self.now.scan.now.rows.now self.now.row (entries_of names.old) result (entries_of names.new) }
    {
        let first = self.first_byte(names)?;
        if !keeps_rules(&self.tag, first) {
            return Err(Refusal::BadRecord(self.place()));
        }
        Ok(())
    }
}

impl<C: Chip> Scan<'_, C> {
    // Checks the record in every row, in rising place, and notes the names of the files.
    pub(crate) fn check_rows(&self, names: &mut Names) -> Result<(), Refusal>
        ensures { RowsChecked (chip_of self.now) self.now.rows.now result (entries_of names.new) }
    {
        names.clear();
        // Tried: filter_map to the entries, but the borrow checker does not cover a closure that gives one.
        for (row, look) in self.rows.iter().enumerate() {
            let Some(entry) = self.entry(row, *look) else {
                continue;
            };
            entry.check(names)?;
        }
        Ok(())
    }
}
