// Makes the calls of a script, read from standard input, and prints what each answers.
#![tactic(auto)]

mod script;
mod target;

use script::{Line, parse};
use std::io;
use target::Target;

fn show_bytes(rt: &impl Print, bytes: &[u8]) -> io::Result<()> {
    print!(rt; "bytes")?;
    for byte in bytes {
        print!(rt; " {byte:02x}")?;
    }
    println!(rt; "")
}

// What a line does to the bus of its section.
fn step(
    rt: &(impl Print + AllocGlobal),
    target: &mut Option<Target>,
    text: &str,
) -> io::Result<()> {
    match parse(text) {
        Some(Line::Blank) => println!(rt; "{text}"),
        Some(Line::Make(make)) => {
            *target = Some(Target::new(rt.alloc(), make)?);
            println!(rt; "{text}")
        }
        Some(Line::Call(call)) => match target {
            Some(target) => target.call(rt, call),
            None => println!(rt; "?"),
        },
        Some(Line::End) => {
            let bytes = match target.take() {
                Some(target) => target.into_bytes(rt.alloc()),
                None => Vec::new(rt.alloc()),
            };
            show_bytes(rt, &bytes)
        }
        None => println!(rt; "?"),
    }
}

fn main(rt: HostRuntime) -> io::Result<()> {
    let mut target = None;
    for line in rt.lines(rt.alloc()) {
        step(&rt, &mut target, line?.as_str())?;
    }
    Ok(())
}
