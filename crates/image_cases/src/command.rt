use std::num::ParseIntError;

// One line of a script.
#[derive(Clone, Copy)]
pub enum Command {
    Edit(Edit),
    Ask(Question),
}

#[derive(Clone, Copy)]
pub enum Edit {
    // start from the built-in image again
    BuiltIn,
    // check the file as it stands before each later check
    Keep,
    // put a value of one, two or four bytes at a place
    Byte(u32, u32),
    Half(u32, u32),
    Word(u32, u32),
    // cut the file, or add zeros to it
    Length(u32),
}

#[derive(Clone, Copy)]
pub enum Question {
    Check,
    Entry,
    Segment(u32),
    SegmentAt(u32),
    Symbol(u32),
    FunctionAt(u32),
}

// A decimal number, or a hexadecimal one after 0x.
fn number(word: &str) -> Result<u32, ParseIntError> {
    match word.strip_prefix("0x") {
        Some(digits) => u32::from_str_radix(digits, 16),
        None => word.parse::<u32>(),
    }
}

impl Command {
    // A verb and up to two numbers; what follows them is not looked at.
    pub(crate) fn parse(line: &str) -> Option<Command> {
        let mut words = line.split_whitespace();
        let verb = words.next()?;
        let first = words.next().map(number).transpose().ok()?;
        let second = match first {
            Some(_) => words.next().map(number).transpose().ok()?,
            None => None,
        };
        match (verb, first, second) {
            ("builtin", None, None) => Some(Command::Edit(Edit::BuiltIn)),
            ("keep", None, None) => Some(Command::Edit(Edit::Keep)),
            ("length", Some(n), None) => Some(Command::Edit(Edit::Length(n))),
            ("byte", Some(at), Some(value)) => Some(Command::Edit(Edit::Byte(at, value))),
            ("half", Some(at), Some(value)) => Some(Command::Edit(Edit::Half(at, value))),
            ("word", Some(at), Some(value)) => Some(Command::Edit(Edit::Word(at, value))),
            ("check", None, None) => Some(Command::Ask(Question::Check)),
            ("entry", None, None) => Some(Command::Ask(Question::Entry)),
            ("segment", Some(i), None) => Some(Command::Ask(Question::Segment(i))),
            ("segment-at", Some(a), None) => Some(Command::Ask(Question::SegmentAt(a))),
            ("symbol", Some(i), None) => Some(Command::Ask(Question::Symbol(i))),
            ("function-at", Some(a), None) => Some(Command::Ask(Question::FunctionAt(a))),
            _ => None,
        }
    }
}
