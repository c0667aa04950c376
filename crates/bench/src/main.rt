// Reads a firmware image from standard input, runs it on the board, and prints what came of it.
#![tactic(auto)]

mod input;
mod report;
mod stop;

use board::fresh_board;
use image::Image;
use input::read_image;
use loader::load;
use machine::Plain;
use report::show_report;
use std::alloc::Global;
use std::io::{BufWriter, Write};
use stop::Stop;

// The steps that a run may take, and an address that is no pc, so that nothing else stops it.
const BUDGET: u32 = 1_000_000;

const NO_STOP: u32 = 1;

// Runs the firmware and reports, if neither the image nor its loading nor the run is refused.
fn show_run<W: Write>(out: &mut W, heap: Global, file: &[u8]) -> Result<(), Stop> {
    let image = Image::check(file)?;
    let mut board = fresh_board(heap)?;
    load(&mut board, &image)?;
    let mut machine = Plain::new(image.entry(), board);
    let run = machine.run(BUDGET, NO_STOP)?;
    show_report(out, run, machine, &image)?;
    Ok(())
}

fn bench(rt: &HostRuntime) -> anyhow::Result<()> {
    let file = read_image(rt)?;
    let mut out = BufWriter::new(rt.alloc(), rt.stdout())?;
    match show_run(&mut out, rt.alloc(), &file) {
        Ok(()) => {}
        Err(Stop::Memory(error)) => return Err(error.into()),
        Err(Stop::Output(error)) => return Err(error.into()),
        Err(refusal) => writeln!(out, "{refusal}")?,
    }
    out.flush()?;
    Ok(())
}

fn main(rt: HostRuntime) -> anyhow::Result<()> {
    bench(&rt)
}
