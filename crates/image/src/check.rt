ghost use Rattle.std.specs.Prelude.{◌≡◌, ◌%◌, ◌==◌, ◌&&◌, IfOk};
ghost use Rattle.image.specs.Fields.{identified};
ghost use Rattle.image.specs.Headers.{header_rows};
ghost use Rattle.image.specs.Numbers.{number_of};
ghost use Rattle.image.specs.Verdict.{rows_fit, rows_cover, verdict};

use crate::file::File;
use crate::header::{PHENTSIZE, ProgramHeader};
use crate::refusal::Refusal;

// The identification: the magic number, 32 bits, little-endian, version 1.
const MAG0: u8 = 0x7f;

const MAG1: u8 = 0x45;

const MAG2: u8 = 0x4c;

const MAG3: u8 = 0x46;

const CLASS_32: u8 = 1;

const DATA_LITTLE: u8 = 1;

const IDENT_VERSION: u8 = 1;

// Whether the file begins as a 32-bit little-endian ELF file does.
fn identified(bytes: &[u8]) -> bool
    ensures { result ≡ identified bytes.now }
{
    match bytes {
        [
            MAG0,
            MAG1,
            MAG2,
            MAG3,
            CLASS_32,
            DATA_LITTLE,
            IDENT_VERSION,
            _rest @ ..,
        ] => true,
        _ => false,
    }
}

// Whether each segment fits a file of `len` bytes.
#[tactic(auto, unfolding(crate::specs::Verdict::rows_fit))]
fn segments_fit(headers: &[[u8; PHENTSIZE]], len: usize) -> bool
    ensures { result ≡ rows_fit len headers.now }
{
    headers.iter().all(|row| ProgramHeader::from(row).fits(len))
}

// Whether an address lies in the memory of a load segment.
#[tactic(auto, unfolding(crate::specs::Verdict::rows_cover))]
fn covered(headers: &[[u8; PHENTSIZE]], a: u32) -> bool
    ensures { result ≡ rows_cover a headers.now }
{
    headers.iter().any(|row| ProgramHeader::from(row).covers(a))
}

fn entry_fits(headers: &[[u8; PHENTSIZE]], entry: u32) -> bool
    ensures { result ≡ (entry % 4 == 0 && rows_cover entry headers.now) }
{
    entry % 4 == 0 && covered(headers, entry)
}

// The program headers of a file that is let in; else the refusal is that of the first condition that fails.
#[tactic(auto, unfolding(crate::specs::Verdict::verdict), using(crate::proofs::Rows::fit_rows, crate::proofs::Rows::entry_rows))]
pub(crate) fn checked_headers(bytes: &[u8]) -> Result<&[[u8; PHENTSIZE]], Refusal>
    ensures verdict { number_of result ≡ verdict bytes.now }
    ensures table { IfOk result (λ r. r.now ≡ header_rows bytes.now) }
{
    let file = File::new(bytes).ok_or(Refusal::Size)?;
    if !identified(bytes) {
        return Err(Refusal::Identification);
    }
    if !file.kind_fits() {
        return Err(Refusal::FileKind);
    }
    let headers = file.program_headers().ok_or(Refusal::ProgramTable)?;
    if !segments_fit(headers, bytes.len()) {
        return Err(Refusal::SegmentBounds);
    }
    if !entry_fits(headers, file.entry()) {
        return Err(Refusal::EntryPoint);
    }
    Ok(headers)
}
