// Edits an image by a script from standard input and prints what the image reader answers.
// A comment, from # on, is printed as it stands; a line that is no command prints ?.
#![tactic(auto)]

mod answers;
mod command;

use answers::*;
use command::{Command, Edit, Question};
use image::ImageHolder;
use std::alloc::AllocError;
use std::io;
use std::io::{BufWriter, Write};

// The file that the script edits, and the one that is checked before it.
#[derive(Drop)]
struct Files {
    edited: Vec<u8>,
    earlier: Vec<u8>,
}

impl Files {
    // Puts bytes at a place, as far as the file goes.
    fn put(&mut self, at: u32, bytes: &[u8]) {
        for (place, b) in self.edited.iter_mut().skip(at as usize).zip(bytes) {
            *place = *b;
        }
    }

    // Starts again from the built-in image.
    fn restart(&mut self) -> Result<(), AllocError> {
        self.edited.clear();
        self.edited
            .extend_from_slice(ImageHolder::new().image().bytes())?;
        self.earlier.clear();
        Ok(())
    }

    fn keep(&mut self) -> Result<(), AllocError> {
        self.earlier.clear();
        self.earlier.extend_from_slice(&self.edited)
    }

    fn edit(&mut self, edit: Edit) -> io::Result<()> {
        match edit {
            Edit::BuiltIn => self.restart()?,
            Edit::Keep => self.keep()?,
            Edit::Byte(at, value) => self.put(at, &value.to_le_bytes()[..1]),
            Edit::Half(at, value) => self.put(at, &value.to_le_bytes()[..2]),
            Edit::Word(at, value) => self.put(at, &value.to_le_bytes()),
            Edit::Length(n) => self.edited.resize(n as usize, 0)?,
        }
        Ok(())
    }

    // Checks the earlier file and then the edited one, and asks the image then in use.
    fn answer<W: Write>(&self, out: &mut W, question: Question) -> io::Result<()> {
        let mut holder = ImageHolder::new();
        let _ = holder.check(&self.earlier);
        let checked = holder.check(&self.edited);
        let image = holder.image();
        match question {
            Question::Check => show_check(out, checked, image),
            Question::Entry => show_entry(out, image),
            Question::Segment(i) => show_segment(out, image, i as usize),
            Question::SegmentAt(a) => show_segment_at(out, image, a),
            Question::Symbol(i) => show_symbol(out, image, i as usize),
            Question::FunctionAt(a) => show_function_at(out, image, a),
        }
    }
}

fn run(rt: &HostRuntime) -> anyhow::Result<()> {
    let heap = rt.alloc();
    let mut out = BufWriter::new(heap, rt.stdout())?;
    let mut files = Files {
        edited: Vec::new(heap),
        earlier: Vec::new(heap),
    };
    for line in rt.lines(heap) {
        let line = line?;
        let text = line.as_str();
        if text.starts_with("#") {
            writeln!(out, "{text}")?;
            continue;
        }
        match Command::parse(text) {
            Some(Command::Edit(edit)) => files.edit(edit)?,
            Some(Command::Ask(question)) => files.answer(&mut out, question)?,
            None => writeln!(out, "?")?,
        }
    }
    out.flush()?;
    Ok(())
}

fn main(rt: HostRuntime) -> anyhow::Result<()> {
    run(&rt)
}
