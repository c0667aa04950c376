ghost use Rattle.std.specs.Prelude.{◌≡◌, ◌+◌, ◌*◌, ◌<◌, ◌≤◌, if◌then◌else◌, nat_le, length, Some, None};
ghost use Rattle.std.specs.Option.{option_map};
ghost use Rattle.image.specs.Fields.{half_at, word_at, rows_at};
ghost use Rattle.image.specs.Headers.{header_rows};
ghost use Rattle.image.specs.Symbols.{section_rows, sections_fit};
ghost use Rattle.image.specs.Verdict.{size_fits, kind_fits, table_fits};

use crate::fields::{half, word};
use crate::header::PHENTSIZE;
use crate::section::SHENTSIZE;

// Places in the file header, by the names that the ELF specification gives them.
const E_TYPE: usize = 16;

const E_MACHINE: usize = 18;

const E_VERSION: usize = 20;

const E_ENTRY: usize = 24;

const E_PHOFF: usize = 28;

const E_SHOFF: usize = 32;

const E_FLAGS: usize = 36;

const E_PHENTSIZE: usize = 42;

const E_PHNUM: usize = 44;

const E_SHENTSIZE: usize = 46;

const E_SHNUM: usize = 48;
// its length
const EHSIZE: usize = 52;

// The file's kind: executable, RISC-V, version 1.
const ET_EXEC: u16 = 2;

const EM_RISCV: u16 = 243;

const EV_CURRENT: u32 = 1;

const MAX_FILE: usize = 65_536;

const MAX_SEGMENTS: u16 = 16;

// A file with a whole file header.
#[derive(Clone, Copy)]
pub(crate) struct File<'a> {
    pub(crate) bytes: &'a [u8],
    ghost headed: { 52 ≤ length bytes.now },
}

// The `count` rows of N bytes each from a place on, if all of them lie in the file.
fn rows<const N: usize>(bytes: &[u8], at: usize, count: usize) -> Option<&[[u8; N]]>
    requires { 0 < N }
    ensures { option_map (λ r. r.now) result ≡ (if nat_le (at + N * count) (length bytes.now) then Some (rows_at N bytes.now at count) else None) }
{
    bytes.get(at..)?.as_chunks::<N>().0.get(..count)
}

impl<'a> File<'a> {
    // The file that some bytes are, if there are neither too few nor too many.
    pub(crate) fn new(bytes: &'a [u8]) -> Option<Self>
        ensures { option_map (λ f. f.bytes.now) result ≡ (if size_fits bytes.now then Some bytes.now else None) }
    {
        if bytes.len() < EHSIZE || bytes.len() > MAX_FILE {
            return None;
        }
        Some(File { bytes })
    }

    fn half(&self, at: usize) -> u16
        requires { at + 2 ≤ 52 }
        ensures { result ≡ half_at self.now.bytes.now at }
    {
        half(self.bytes, at)
    }

    fn word(&self, at: usize) -> u32
        requires { at + 4 ≤ 52 }
        ensures { result ≡ word_at self.now.bytes.now at }
    {
        word(self.bytes, at)
    }

    // The address at which the firmware starts.
    pub(crate) fn entry(&self) -> u32
        ensures { result ≡ word_at self.now.bytes.now 24 }
    {
        self.word(E_ENTRY)
    }

    // Whether the file is an executable for RISC-V.
    pub(crate) fn kind_fits(&self) -> bool
        ensures { result ≡ kind_fits self.now.bytes.now }
    {
        self.half(E_TYPE) == ET_EXEC
            && self.half(E_MACHINE) == EM_RISCV
            && self.word(E_VERSION) == EV_CURRENT
            && self.word(E_FLAGS) == 0
    }

    // The program headers, if their number and length are right and they lie in the file.
    pub(crate) fn program_headers(&self) -> Option<&'a [[u8; PHENTSIZE]]>
        ensures { option_map (λ r. r.now) result ≡ (if table_fits self.now.bytes.now then Some (header_rows self.now.bytes.now) else None) }
    {
        let count = self.half(E_PHNUM);
        if usize::from(self.half(E_PHENTSIZE)) != PHENTSIZE || count == 0 || count > MAX_SEGMENTS {
            return None;
        }
        rows(self.bytes, self.word(E_PHOFF) as usize, usize::from(count))
    }

    // The section headers, if their length is right and they lie in the file.
    pub(crate) fn section_headers(&self) -> Option<&'a [[u8; SHENTSIZE]]>
        ensures { option_map (λ r. r.now) result ≡ (if sections_fit self.now.bytes.now then Some (section_rows self.now.bytes.now) else None) }
    {
        if usize::from(self.half(E_SHENTSIZE)) != SHENTSIZE {
            return None;
        }
        rows(
            self.bytes,
            self.word(E_SHOFF) as usize,
            usize::from(self.half(E_SHNUM)),
        )
    }
}
