use std::num::ParseIntError;

// A line of a script. Numbers are hexadecimal.
#[derive(Clone, Copy)]
pub enum Line {
    // a fresh machine at an entry
    Start(u32),
    // a call of the machine
    Call(Call),
}

#[derive(Clone, Copy)]
pub enum Call {
    // a poke whose answer is shown only if it is refused
    Code(u32, u32),
    Poke(u32, u32),
    Feed(u8),
    Flush,
    Run(u32, u32),
    Register(u32),
    Pc,
    Trap,
    Sent(u32),
}

// The number that the line goes on with, if it goes on. As in `device_cases`: a crate for one line of parsing would be longer than both.
fn number(word: Option<&str>) -> Result<Option<u32>, ParseIntError> {
    word.map(|digits| u32::from_str_radix(digits, 16))
        .transpose()
}

impl Line {
    // Words after a verb and two numbers are a comment.
    pub(crate) fn parse(line: &str) -> Option<Line> {
        let mut words = line.split_whitespace();
        let verb = words.next()?;
        let first = number(words.next()).ok()?;
        let second = number(words.next()).ok()?;
        match (verb, first, second) {
            ("start", Some(entry), None) => Some(Line::Start(entry)),
            _ => Some(Line::Call(Call::of(verb, first, second)?)),
        }
    }
}

impl Call {
    fn of(verb: &str, first: Option<u32>, second: Option<u32>) -> Option<Call> {
        match (verb, first, second) {
            ("code", Some(address), Some(word)) => Some(Call::Code(address, word)),
            ("poke", Some(address), Some(word)) => Some(Call::Poke(address, word)),
            ("feed", Some(byte), None) => Some(Call::Feed(u8::try_from(byte).ok()?)),
            ("flush", None, None) => Some(Call::Flush),
            ("run", Some(budget), Some(stop)) => Some(Call::Run(budget, stop)),
            ("register", Some(i), None) => Some(Call::Register(i)),
            ("pc", None, None) => Some(Call::Pc),
            ("trap", None, None) => Some(Call::Trap),
            ("sent", Some(i), None) => Some(Call::Sent(i)),
            _ => None,
        }
    }
}
