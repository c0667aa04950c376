// Functions and no `Display`: the types are of other crates, and the text is this script's.
use hart::{RegisterRefusal, Trap};
use machine::{Fetched, Refusal, Run};
use std::io;
use std::io::Write;

pub(crate) fn show_refusal<W: Write>(out: &mut W, refusal: Refusal) -> io::Result<()> {
    match refusal {
        Refusal::Bus(fault) => writeln!(out, "{refusal} fault {fault}"),
        _ => writeln!(out, "{refusal}"),
    }
}

pub(crate) fn show_done<W: Write>(out: &mut W, answer: Result<(), Refusal>) -> io::Result<()> {
    match answer {
        Ok(()) => writeln!(out, "done"),
        Err(refusal) => show_refusal(out, refusal),
    }
}

pub(crate) fn show_run<W: Write>(
    out: &mut W,
    answer: Result<Run<Fetched>, Refusal>,
) -> io::Result<()> {
    match answer {
        Ok(run) => writeln!(
            out,
            "end {} steps {} fetched {}",
            run.end.number(),
            run.steps,
            run.words.fetched
        ),
        Err(refusal) => show_refusal(out, refusal),
    }
}

pub(crate) fn show_register<W: Write>(
    out: &mut W,
    answer: Result<u32, RegisterRefusal>,
) -> io::Result<()> {
    match answer {
        Ok(value) => writeln!(out, "holds {value:08x}"),
        Err(refusal) => writeln!(out, "{refusal}"),
    }
}

pub(crate) fn show_trap<W: Write>(out: &mut W, trap: Option<Trap>) -> io::Result<()> {
    let Some(trap) = trap else {
        return writeln!(out, "none");
    };
    write!(
        out,
        "trap {:08x} {:08x} {:08x}",
        trap.mcause, trap.mepc, trap.mtval
    )?;
    match trap.fault {
        Some(fault) => writeln!(out, " fault {fault}"),
        None => writeln!(out, ""),
    }
}

pub(crate) fn show_sent<W: Write>(out: &mut W, sent: Option<u8>) -> io::Result<()> {
    match sent {
        Some(byte) => writeln!(out, "byte {byte:02x}"),
        None => writeln!(out, "none"),
    }
}
