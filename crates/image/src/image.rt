mod parts;

ghost use Rattle.std.specs.Prelude.{◌≡◌, ℕ, ◌+◌, ◌*◌, ◌<◌, ◌≤◌, true, length};
ghost use Rattle.image.specs.Headers.{header_at, header_rows, table_place, table_count};
ghost use Rattle.image.specs.Verdict.{segment_fits, verdict};

use crate::header::PHENTSIZE;

// A file that was checked and taken. The first fact says so; the others follow from it and are what reading leans on.
// No `Model`: a struct that is `Copy` and has a lifetime can have none.
#[derive(Clone, Copy)]
pub struct Image<'a> {
    bytes: &'a [u8],
    headers: &'a [[u8; PHENTSIZE]],
    ghost checked: { verdict bytes.now ≡ 0 },
    ghost sized: { 52 ≤ length bytes.now },
    ghost table: { table_place bytes.now + 32 * table_count bytes.now ≤ length bytes.now },
    ghost rows: { headers.now ≡ header_rows bytes.now },
    ghost parts: { (k : ℕ) → k < table_count bytes.now → segment_fits (length bytes.now) (header_at bytes.now k) ≡ true },
}
