use loader::LoadRefusal;
use std::alloc::AllocError;
use std::{fmt, io};

// What ends a run before its report: the image, its loading or the run is refused, or the program itself fails.
#[derive(Debug, Drop)]
pub enum Stop {
    Image(image::Refusal),
    Load(LoadRefusal),
    Run(machine::Refusal),
    Memory(AllocError),
    Output(io::Error),
}

// By hand, as `From` below: a derived one would be one more crate to trust.
impl fmt::Display for Stop {
    fn fmt<W: fmt::Write>(&self, f: &mut fmt::Formatter<W>) -> fmt::Result {
        match self {
            Stop::Image(refusal) => write!(f, "{refusal}"),
            Stop::Load(refusal) => write!(f, "{refusal}"),
            Stop::Run(refusal) => write!(f, "{refusal}"),
            Stop::Memory(error) => write!(f, "{error}"),
            Stop::Output(error) => write!(f, "{error}"),
        }
    }
}

impl From<image::Refusal> for Stop {
    fn from(refusal: image::Refusal) -> Self {
        Stop::Image(refusal)
    }
}

impl From<LoadRefusal> for Stop {
    fn from(refusal: LoadRefusal) -> Self {
        Stop::Load(refusal)
    }
}

impl From<machine::Refusal> for Stop {
    fn from(refusal: machine::Refusal) -> Self {
        Stop::Run(refusal)
    }
}

impl From<AllocError> for Stop {
    fn from(error: AllocError) -> Self {
        Stop::Memory(error)
    }
}

impl From<io::Error> for Stop {
    fn from(error: io::Error) -> Self {
        Stop::Output(error)
    }
}
