// Functions and no `Display`: the types are of other crates, and names and the console are bytes and no text.
use board::Board;
use hart::Trap;
use image::{Image, Symbols};
use machine::{Fetched, Plain, Run};
use std::io;
use std::io::Write;

// The end and the counts, the hart, the trap and the console.
pub(crate) fn show_report<W: Write>(
    out: &mut W,
    run: Run<Fetched>,
    machine: Plain<Board>,
    image: &Image,
) -> io::Result<()> {
    let end = run.end.number();
    let steps = run.steps;
    let fetched = run.words.fetched;
    writeln!(out, "end {end} steps {steps}")?;
    writeln!(out, "fetched {fetched}")?;
    let pc = machine.pc();
    writeln!(out, "pc {pc:08x}")?;
    show_registers(out, &machine)?;
    show_trap(out, machine.trap(), image)?;
    show_console(out, machine)
}

// The registers that are not zero, by number.
fn show_registers<W: Write>(out: &mut W, machine: &Plain<Board>) -> io::Result<()> {
    for (i, value) in machine.registers().iter().enumerate() {
        if *value != 0 {
            writeln!(out, "x{i:02} {value:08x}")?;
        }
    }
    Ok(())
}

// The trap's cause, pc and value, and the function that holds the pc.
fn show_trap<W: Write>(out: &mut W, trap: Option<Trap>, image: &Image) -> io::Result<()> {
    let Some(trap) = trap else {
        return writeln!(out, "trap none");
    };
    let cause = trap.mcause;
    let pc = trap.mepc;
    let value = trap.mtval;
    write!(out, "trap {cause:08x} {pc:08x} {value:08x} ")?;
    match Symbols::of(image).function_at(pc) {
        Some(function) => out.write_all(function.name)?,
        None => out.write_all(b"-")?,
    }
    writeln!(out, "")
}

// How many bytes were sent, and the bytes.
fn show_console<W: Write>(out: &mut W, machine: Plain<Board>) -> io::Result<()> {
    let (_clint, high) = machine.end().into_parts();
    let (uart, _ram) = high.into_parts();
    let console = uart.into_console();
    let count = console.len();
    writeln!(out, "console {count}")?;
    out.write_all(&console)
}
