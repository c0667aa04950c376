ghost use Rattle.image.specs.Tables.{segment_records};

use crate::header::PT_LOAD;
use crate::image::Image;
use crate::records::{Record, RecordTable};

// A segment. Its bytes are a part of the image, and `at` is the part's place in the file, which is there by a rule of the project.
#[derive(Clone, Copy)]
pub enum Segment<'a> {
    // memory of `size` bytes from `address` on: first the bytes, then zeros
    Load {
        bytes: &'a [u8],
        at: usize,
        address: u32,
        size: u32,
    },
    Note {
        bytes: &'a [u8],
        at: usize,
    },
    Other,
}

impl<'a> RecordTable for Image<'a> {
    ghost records = { λ x. segment_records x.bytes.now };

    fn len(&self) -> usize {
        self.segment_count()
    }

    fn record(&self, i: usize) -> Record {
        let Some(header) = self.header(i) else {
            return Record::NONE;
        };
        let size = if header.kind == PT_LOAD {
            header.memsz
        } else {
            0
        };
        Record {
            start: header.vaddr,
            size,
        }
    }
}
