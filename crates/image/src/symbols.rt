ghost use Rattle.std.specs.Prelude.{◌≡◌, ◌*◌, ◌/◌, if◌then◌else◌, nat_lt, length, Some, None};
ghost use Rattle.image.specs.Symbols.{entries_of, names_of, entry_from, symbol_records, symbol_told, symbol_at, FunctionAt};

use crate::image::Image;
use crate::records::{Record, RecordTable, find};
use crate::refusal::Refusal;
use crate::section::symbol_parts;
use crate::symbol::{Entry, SYMENTSIZE, Symbol, is_function_info, name_from};

// The symbols of an image: their 16-byte entries, and the bytes of their names. Both are empty where there are none.
#[derive(Clone, Copy)]
pub struct Symbols<'a> {
    // bytes and no rows: the contracts speak of them, with a last entry that is cut short
    entries: &'a [u8],
    names: &'a [u8],
}

impl<'a> Symbols<'a> {
    #[tactic(auto, unfolding(crate::specs::Symbols::entries_of, crate::specs::Symbols::names_of))]
    pub fn of(image: &Image<'a>) -> Self
        ensures entries { result.entries.now ≡ entries_of image.now.bytes.now }
        ensures names { result.names.now ≡ names_of image.now.bytes.now }
    {
        let (entries, names) = symbol_parts(&image.file()).unwrap_or_default();
        Symbols { entries, names }
    }

    #[tactic(auto, using(crate::proofs::Rows::entry_row))]
    fn entry(&self, i: usize) -> Option<Entry>
        ensures { result ≡ (if nat_lt i (length self.now.entries.now / 16) then Some (entry_from self.now.entries.now (16 * i)) else None) }
    {
        let (entries, _cut_short) = self.entries.as_chunks::<SYMENTSIZE>();
        Some(Entry::from(entries.get(i)?))
    }

    // Symbol `i`, in the order of the file.
    pub fn symbol(&self, i: usize) -> Result<Symbol<'a>, Refusal>
        ensures { symbol_told result ≡ symbol_at self.now.entries.now self.now.names.now i }
    {
        let entry = self.entry(i).ok_or(Refusal::Index)?;
        Ok(Symbol {
            name: name_from(self.names, entry.name as usize),
            value: entry.value,
            size: entry.size,
            info: entry.info,
        })
    }

    // The function that holds an address.
    pub fn function_at(&self, a: u32) -> Option<Symbol<'a>>
        ensures { FunctionAt self.now.entries.now self.now.names.now a result }
    {
        let i = find(self, a)?;
        self.symbol(i).ok()
    }
}

impl<'a> RecordTable for Symbols<'a> {
    ghost records = { λ x. symbol_records x.entries.now };

    fn len(&self) -> usize {
        self.entries.len() / SYMENTSIZE
    }

    fn record(&self, i: usize) -> Record {
        let Some(entry) = self.entry(i) else {
            return Record::NONE;
        };
        let size = if is_function_info(entry.info) {
            entry.size
        } else {
            0
        };
        Record {
            start: entry.value,
            size,
        }
    }
}
