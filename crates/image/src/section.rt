ghost use Rattle.std.specs.Prelude.{◌≡◌, ◌==◌, ℕ, List, if◌then◌else◌, map, Some, None};
ghost use Rattle.std.specs.List.{find};
ghost use Rattle.std.specs.Option.{option_map};
ghost use Rattle.image.specs.Symbols.{section_from, section_part, section_inside, has_symbols, entries_of, names_of};

use crate::fields::word;
use crate::file::File;

// The length of a section header, and the type of a symbol section.
pub(crate) const SHENTSIZE: usize = 40;

const SHT_SYMTAB: u32 = 2;

// What is used of a section header.
#[derive(Clone, Copy)]
pub struct Section {
    // sh_type as it stands in the file: an enum of one type and all others would be no plainer than the constant
    pub kind: u32,
    pub offset: u32,
    pub size: u32,
    pub link: u32,
}

impl From<&[u8; SHENTSIZE]> for Section {
    ghost from_gives = { λ row h. h ≡ section_from row.now 0 };

    fn from(row: &[u8; SHENTSIZE]) -> Self {
        Section {
            kind: word(row, 4),
            offset: word(row, 16),
            size: word(row, 20),
            link: word(row, 24),
        }
    }
}

impl Section {
    // The section's bytes, if they lie in the file.
    fn part<'a>(&self, bytes: &'a [u8]) -> Option<&'a [u8]>
        ensures { option_map (λ p. p.now) result ≡ (if section_inside bytes.now self.now then Some (section_part bytes.now self.now) else None) }
    {
        let from = self.offset as usize;
        bytes.get(from..from + self.size as usize)
    }
}

// The first symbol section.
fn first_symbol_section(headers: &[[u8; SHENTSIZE]]) -> Option<Section>
    ensures { result ≡ find (λ h. h.kind == 2) (map (λ row. section_from row 0) headers.now) }
{
    headers
        .iter()
        .map(Section::from)
        .find(|h| h.kind == SHT_SYMTAB)
}

// The bytes of the first symbol section and of the section of its names, where both can be read.
#[tactic(auto, unfolding(crate::specs::Symbols::entries_of, crate::specs::Symbols::names_of), using(crate::proofs::Rows::first_symbols, crate::proofs::Rows::section_row, crate::proofs::Rows::length_chunks))]
pub(crate) fn symbol_parts<'a>(file: &File<'a>) -> Option<(&'a [u8], &'a [u8])>
    ensures { option_map {U = List ℕ × List ℕ} (λ p. (p.0.now, p.1.now)) result ≡ (if has_symbols file.now.bytes.now then Some (entries_of file.now.bytes.now, names_of file.now.bytes.now) else None) }
{
    let headers = file.section_headers()?;
    let symbols = first_symbol_section(headers)?;
    let names = Section::from(headers.get(symbols.link as usize)?);
    Some((symbols.part(file.bytes)?, names.part(file.bytes)?))
}
