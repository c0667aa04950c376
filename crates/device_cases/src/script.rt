use bus::Width;
use std::num::ParseIntError;

// A line of the script. Numbers are hexadecimal.
#[derive(Drop)]
pub enum Line {
    // Nothing, or a comment after `#`.
    Blank,
    // The bus that a section begins with.
    Make(Make),
    // A call on it.
    Call(Call),
    // The end of it, which shows the bytes that it hands back.
    End,
}

#[derive(Drop)]
pub enum Make {
    Ram(u32, u32),
    Rom(u32, u32),
    Uart(u32),
    Clint,
    Board,
}

#[derive(Drop)]
pub enum Call {
    Fetch(u32),
    Load(u32, Width),
    Store(u32, Width, u32),
    Tick(u32),
    Lines,
    Steady(u32),
    Feed(u8),
    Sent(u32),
}

// The numbers after a line's first word, at most three.
type Numbers = [Option<u32>; 3];

// A word's number, or none where there is no word. `machine_cases` has the same: a crate for one line would be longer than both.
fn number(word: Option<&str>) -> Result<Option<u32>, ParseIntError> {
    word.map(|text| u32::from_str_radix(text, 16)).transpose()
}

// A function: a `TryFrom` would have to stand in `bus`, a public function there for this program alone.
fn width(size: u32) -> Option<Width> {
    match size {
        1 => Some(Width::Byte),
        2 => Some(Width::Half),
        4 => Some(Width::Word),
        _ => None,
    }
}

fn made_by(name: &str, numbers: Numbers) -> Option<Make> {
    match (name, numbers) {
        ("ram", [Some(base), Some(len), None]) => Some(Make::Ram(base, len)),
        ("rom", [Some(base), Some(len), None]) => Some(Make::Rom(base, len)),
        ("uart", [Some(room), None, None]) => Some(Make::Uart(room)),
        ("clint", [None, None, None]) => Some(Make::Clint),
        ("board", [None, None, None]) => Some(Make::Board),
        _ => None,
    }
}

fn called_by(name: &str, numbers: Numbers) -> Option<Call> {
    match (name, numbers) {
        ("fetch", [Some(address), None, None]) => Some(Call::Fetch(address)),
        ("load", [Some(address), Some(size), None]) => Some(Call::Load(address, width(size)?)),
        ("store", [Some(address), Some(size), Some(value)]) => {
            Some(Call::Store(address, width(size)?, value))
        }
        ("tick", [Some(count), None, None]) => Some(Call::Tick(count)),
        ("lines", [None, None, None]) => Some(Call::Lines),
        ("steady", [Some(address), None, None]) => Some(Call::Steady(address)),
        ("feed", [Some(byte), None, None]) => Some(Call::Feed(u8::try_from(byte).ok()?)),
        ("sent", [Some(index), None, None]) => Some(Call::Sent(index)),
        _ => None,
    }
}

// The meaning of a line, or none.
pub(crate) fn parse(text: &str) -> Option<Line> {
    let mut words = text.split_whitespace();
    let Some(name) = words.next() else {
        return Some(Line::Blank);
    };
    if name.starts_with('#') {
        return Some(Line::Blank);
    }
    let numbers = [
        number(words.next()).ok()?,
        number(words.next()).ok()?,
        number(words.next()).ok()?,
    ];
    if words.next().is_some() {
        return None;
    }
    if name == "end" {
        return Some(Line::End);
    }
    if let Some(make) = made_by(name, numbers) {
        return Some(Line::Make(make));
    }
    called_by(name, numbers).map(Line::Call)
}
