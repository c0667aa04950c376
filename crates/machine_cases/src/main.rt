// Makes the calls of a script, read from standard input, on a plain machine over a fresh board, and prints what each answers.
// A comment, from # on, is printed where it begins the line; a line that is no call prints ?.
#![tactic(auto)]

mod answers;
mod call;

use answers::*;
use board::{Board, fresh_board};
use bus::Bus;
use call::{Call, Line};
use machine::Plain;
use std::io;
use std::io::{BufWriter, Write};

fn make<W: Write>(out: &mut W, machine: &mut Plain<Board>, call: Call) -> io::Result<()> {
    match call {
        Call::Code(address, word) => match machine.poke(address, word) {
            Ok(()) => Ok(()),
            Err(refusal) => show_refusal(out, refusal),
        },
        Call::Poke(address, word) => show_done(out, machine.poke(address, word)),
        Call::Feed(byte) => show_done(out, machine.feed(byte)),
        Call::Flush => {
            machine.flush();
            writeln!(out, "done")
        }
        Call::Run(budget, stop) => show_run(out, machine.run(budget, stop)),
        Call::Register(i) => show_register(out, machine.register(i)),
        Call::Pc => writeln!(out, "pc {:08x}", machine.pc()),
        Call::Trap => show_trap(out, machine.trap()),
        Call::Sent(i) => show_sent(out, machine.sent(i as usize)),
    }
}

fn run(rt: &HostRuntime) -> anyhow::Result<()> {
    let heap = rt.alloc();
    let mut out = BufWriter::new(heap, rt.stdout())?;
    let mut machine = Plain::new(0, fresh_board(heap)?);
    for line in rt.lines(heap) {
        let line = line?;
        let text = line.as_str();
        if text.starts_with("#") {
            writeln!(out, "{text}")?;
            continue;
        }
        match Line::parse(text) {
            Some(Line::Start(entry)) => machine = Plain::new(entry, fresh_board(heap)?),
            Some(Line::Call(call)) => make(&mut out, &mut machine, call)?,
            None => writeln!(out, "?")?,
        }
    }
    out.flush()?;
    Ok(())
}

fn main(rt: HostRuntime) -> anyhow::Result<()> {
    run(&rt)
}
