// Runs a loop with loads, stores and branches over the full board. Without an argument it makes one run of a million steps and
// prints what it left; with an argument N it times N such runs.
#![tactic(auto)]

use anyhow::anyhow;
use board::{Board, fresh_board};
use machine::Plain;
use std::alloc::Global;
use std::env;
use std::time::Instant;

const BASE: u32 = 0x8000_0000;

const BUDGET: u32 = 1_000_000;

const NO_STOP: u32 = 1;

// Adds 0, 1, 2 and so on to the word at x5, and stores each fourth count beside it.
const LOOP: [u32; 10] = [
    0x8000_12b7, //       lui  x5, 0x80001
    0x0000_0313, //       addi x6, x0, 0
    0x0002_a383, // loop: lw   x7, 0(x5)
    0x0063_83b3, //       add  x7, x7, x6
    0x0072_a023, //       sw   x7, 0(x5)
    0x0013_0313, //       addi x6, x6, 1
    0x0033_7413, //       andi x8, x6, 3
    0xfe04_16e3, //       bne  x8, x0, loop
    0x0062_a223, //       sw   x6, 4(x5)
    0xfe5f_f06f, //       jal  x0, loop
];

// The machine over a fresh board, with the loop in its RAM.
fn prepared(heap: Global) -> anyhow::Result<Plain<Board>> {
    let mut machine = Plain::new(BASE, fresh_board(heap)?);
    for (i, word) in LOOP.iter().enumerate() {
        machine
            .poke(BASE + 4 * i as u32, *word)
            .map_err(|_| anyhow!("the loop does not fit"))?;
    }
    Ok(machine)
}

fn show_once(rt: &HostRuntime) -> anyhow::Result<()> {
    let mut machine = prepared(rt.alloc())?;
    let run = machine
        .run(BUDGET, NO_STOP)
        .map_err(|_| anyhow!("the run was refused"))?;
    println!(rt;
        "plain steps {} fetched {} pc {:08x}",
        run.steps,
        run.words.fetched,
        machine.pc()
    )?;
    for (i, value) in machine.registers().iter().enumerate().skip(5).take(4) {
        println!(rt; "x{i:02} {value:08x}")?;
    }
    Ok(())
}

fn show_timed(rt: &HostRuntime, runs: u32) -> anyhow::Result<()> {
    let mut machine = prepared(rt.alloc())?;
    let start = Instant::now(rt)?;
    for _ in 0..runs {
        machine.run(BUDGET, NO_STOP)?;
    }
    let millis = start.elapsed(rt)?.as_millis();
    println!(rt; "plain: {runs} million steps in {millis} ms")?;
    Ok(())
}

fn speed(rt: &HostRuntime) -> anyhow::Result<()> {
    match env::args(rt)?.nth(1) {
        Some(runs) => show_timed(rt, runs.as_str().parse::<u32>()?),
        None => show_once(rt),
    }
}

fn main(rt: HostRuntime) -> anyhow::Result<()> {
    speed(&rt)
}
