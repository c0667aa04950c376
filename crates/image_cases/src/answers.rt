// Functions and no `Display`: the types are of other crates, and the text is this script's.
use image::{Image, RecordTable, Refusal, Segment, Symbols, find};
use std::io;
use std::io::Write;

// The check's answer, and the length of the image then in use.
pub(crate) fn show_check<W: Write>(
    out: &mut W,
    checked: Result<(), Refusal>,
    image: &Image,
) -> io::Result<()> {
    match checked {
        Ok(()) => writeln!(out, "taken")?,
        Err(refusal) => writeln!(out, "{refusal}")?,
    }
    writeln!(out, "in use {}", image.bytes().len())
}

pub(crate) fn show_entry<W: Write>(out: &mut W, image: &Image) -> io::Result<()> {
    writeln!(out, "entry {:08x}", image.entry())
}

pub(crate) fn show_segment<W: Write>(out: &mut W, image: &Image, i: usize) -> io::Result<()> {
    match image.segment(i) {
        Ok(
            Segment::Load {
                bytes,
                at,
                address,
                size,
            },
        ) => writeln!(
            out,
            "load {} at {at} to {address:08x} size {size}",
            bytes.len(),
        ),
        Ok(Segment::Note { bytes, at }) => writeln!(out, "note {} at {at}", bytes.len()),
        Ok(Segment::Other) => writeln!(out, "other"),
        Err(refusal) => writeln!(out, "{refusal}"),
    }
}

pub(crate) fn show_symbol<W: Write>(out: &mut W, image: &Image, i: usize) -> io::Result<()> {
    match Symbols::of(image).symbol(i) {
        Ok(symbol) => {
            write!(
                out,
                "symbol {:08x} size {} type {} ",
                symbol.value,
                symbol.size,
                symbol.info % 16,
            )?;
            out.write_all(symbol.name)?;
            writeln!(out, ".")
        }
        Err(refusal) => writeln!(out, "{refusal}"),
    }
}

// The number of the record that holds an address.
fn show_found<W: Write, T: RecordTable>(out: &mut W, table: &T, a: u32) -> io::Result<()> {
    match find(table, a) {
        Some(i) => writeln!(out, "number {i}"),
        None => writeln!(out, "none"),
    }
}

pub(crate) fn show_segment_at<W: Write>(out: &mut W, image: &Image, a: u32) -> io::Result<()> {
    show_found(out, image, a)
}

pub(crate) fn show_function_at<W: Write>(out: &mut W, image: &Image, a: u32) -> io::Result<()> {
    show_found(out, &Symbols::of(image), a)
}
