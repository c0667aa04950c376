ghost use Rattle.image.specs.Symbols.{entry_from, is_function, name_at, up_to_zero};
ghost use Rattle.std.specs.Prelude.{◌≡◌};

use crate::fields::word;

// The length of a symbol's entry, and the type of a function.
pub(crate) const SYMENTSIZE: usize = 16;

const STT_FUNC: u8 = 2;

// What is used of a symbol's entry; its name is a place among the names.
#[derive(Clone, Copy)]
pub struct Entry {
    pub name: u32,
    pub value: u32,
    pub size: u32,
    pub info: u8,
}

impl From<&[u8; SYMENTSIZE]> for Entry {
    ghost from_gives = { λ row e. e ≡ entry_from row.now 0 };

    fn from(row: &[u8; SYMENTSIZE]) -> Self {
        Entry {
            name: word(row, 0),
            value: word(row, 4),
            size: word(row, 8),
            info: row[12],
        }
    }
}

// A symbol, with its name as a part of the image.
#[derive(Clone, Copy)]
pub struct Symbol<'a> {
    pub name: &'a [u8],
    pub value: u32,
    pub size: u32,
    // st_info as it stands in the file: two halves, of which only one type is asked for, and an enum of it would have a case for all others
    pub info: u8,
}

// Whether a symbol's info byte says that it is a function.
pub(crate) fn is_function_info(info: u8) -> bool
    ensures { result ≡ is_function info }
{
    info % 16 == STT_FUNC
}

impl Symbol<'_> {
    pub fn is_function(&self) -> bool
        ensures { result ≡ is_function self.now.info }
    {
        is_function_info(self.info)
    }
}

// The name at the start of some bytes: up to a 0 byte, or all.
fn up_to_zero(rest: &[u8]) -> &[u8]
    ensures { result.now ≡ up_to_zero rest.now }
{
    let n = rest.iter().position(|b| *b == 0).unwrap_or(rest.len());
    &rest[..n]
}

// The name at a place; past the end it is empty.
pub(crate) fn name_from(names: &[u8], at: usize) -> &[u8]
    ensures { result.now ≡ name_at names.now at }
{
    up_to_zero(names.get(at..).unwrap_or_default())
}
