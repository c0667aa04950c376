ghost use Rattle.std.specs.Prelude.{◌≡◌, ◌≤◌, if◌then◌else◌, nat_lt, length, Some, None, IfOk};
ghost use Rattle.image.specs.Headers.{entry_of, header_at, table_count};
ghost use Rattle.image.specs.Numbers.{number_of};
ghost use Rattle.image.specs.Segments.{segment_told, segment_at, Bounded};
ghost use Rattle.image.specs.Verdict.{verdict};
ghost use Rattle.image.specs.WellFormed.{Judged};

use super::Image;
use crate::check::checked_headers;
use crate::file::File;
use crate::header::{PT_LOAD, PT_NOTE, ProgramHeader};
use crate::refusal::Refusal;
use crate::segment::Segment;

impl<'a> Image<'a> {
    // The image that a file is, if it is well formed.
    #[tactic(auto, using(crate::proofs::Judging::judged_as))]
    pub fn check(bytes: &'a [u8]) -> Result<Self, Refusal>
        ensures verdict { number_of result ≡ verdict bytes.now }
        ensures judged { Judged bytes.now (number_of result) }
        ensures same { IfOk result (λ x. x.bytes.now ≡ bytes.now) }
    {
        let headers = checked_headers(bytes)?;
        Ok(Image { bytes, headers })
    }

    // The image that a file is, where that is known.
    pub(crate) fn new(bytes: &'a [u8]) -> Self
        requires { verdict bytes.now ≡ 0 }
        ensures { result.bytes.now ≡ bytes.now }
    {
        let headers = File { bytes }.program_headers().unwrap();
        Image { bytes, headers }
    }

    // The file, of which there is at least a whole header.
    pub fn bytes(&self) -> &'a [u8]
        ensures same { result.now ≡ self.now.bytes.now }
        ensures sized { 52 ≤ length result.now }
    {
        self.bytes
    }

    pub(crate) fn file(&self) -> File<'a>
        ensures { result.bytes.now ≡ self.now.bytes.now }
    {
        File { bytes: self.bytes }
    }

    // The address at which the firmware starts.
    pub fn entry(&self) -> u32
        ensures { result ≡ entry_of self.now.bytes.now }
    {
        self.file().entry()
    }

    // The number of segments.
    #[tactic(auto, using(crate::proofs::Rows::length_chunks))]
    pub fn segment_count(&self) -> usize
        ensures { result ≡ table_count self.now.bytes.now }
    {
        self.headers.len()
    }

    #[tactic(auto, using(crate::proofs::Rows::header_row, crate::proofs::Rows::length_chunks))]
    pub(crate) fn header(&self, i: usize) -> Option<ProgramHeader>
        ensures { result ≡ (if nat_lt i (table_count self.now.bytes.now) then Some (header_at self.now.bytes.now i) else None) }
    {
        Some(ProgramHeader::from(self.headers.get(i)?))
    }

    // Segment `i`, in the order of the program headers.
    pub fn segment(&self, i: usize) -> Result<Segment<'a>, Refusal>
        ensures told { segment_told result ≡ segment_at self.now.bytes.now i }
        ensures bounded { IfOk result Bounded }
    {
        let header = self.header(i).ok_or(Refusal::Index)?;
        let bytes = self.bytes;
        let at = header.offset as usize;
        let end = at + header.filesz as usize;
        match header.kind {
            PT_LOAD => Ok(Segment::Load {
                bytes: &bytes[at..end],
                at,
                address: header.vaddr,
                size: header.memsz,
            }),
            PT_NOTE => Ok(Segment::Note {
                bytes: &bytes[at..end],
                at,
            }),
            _ => Ok(Segment::Other),
        }
    }
}
