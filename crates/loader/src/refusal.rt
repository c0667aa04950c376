ghost use Rattle.loader.specs.Numbers.{load_refusal_number};
ghost use Rattle.loader.specs.declared.refusal.LoadRefusal.TheVariants.{Store};
ghost use Rattle.std.specs.Fmt.{decimal};
ghost use Rattle.std.specs.Prelude.{◌≡◌, ◌++◌, Some, codes};

use bus::Fault;
use std::error::Error;
use std::fmt;

// Why a load ended early.
#[derive(Clone, Copy, Debug)]
pub enum LoadRefusal {
    // the bus refused a byte
    Store(Fault),
}

impl LoadRefusal {
    // The number by which a report names the refusal. A match: `as` takes no enum whose variants hold values.
    pub fn number(self) -> u8
        ensures { result ≡ load_refusal_number self }
    {
        match self {
            LoadRefusal::Store(_) => 9,
        }
    }
}

impl From<Fault> for LoadRefusal {
    ghost from_gives = { λ f r. r ≡ Store f };

    fn from(fault: Fault) -> LoadRefusal {
        LoadRefusal::Store(fault)
    }
}

// The same in hart, image, loader and machine: only a type's own crate can give it `Display`, so a shared trait would need an impl in each.
impl fmt::Display for LoadRefusal {
    ghost output = { λ r. Some (codes "refused " ++ decimal (load_refusal_number r)) };

    fn fmt<W: fmt::Write>(&self, f: &mut fmt::Formatter<W>) -> fmt::Result {
        write!(f, "refused {}", self.number())
    }
}

impl Error for LoadRefusal {}
