// What the calls of a machine answer.
ghost use Rattle.machine.specs.Numbers.{end_number, refusal_numbers, refusal_text};
ghost use Rattle.machine.specs.declared.answer.Refusal.TheVariants.{Bus, Feed};
ghost use Rattle.std.specs.Prelude.{◌≡◌, Some};

use bus::{Fault, FeedRefusal};
use std::error::Error;
use std::fmt;

// How a run ended.
#[derive(Clone, Copy)]
pub enum End {
    BudgetUsed = 1,
    Stopped = 2,
}

// A run that was taken: how it ended, its steps, and the words that came in them.
#[derive(Clone, Copy)]
pub struct Run<W> {
    pub end: End,
    pub steps: u32,
    pub words: W,
}

// The words that the plain machine fetched.
#[derive(Clone, Copy)]
pub struct Fetched {
    pub fetched: u32,
}

// Why a call was refused.
#[derive(Clone, Copy, Debug)]
pub enum Refusal {
    // A poke off a multiple of 4.
    Misaligned,
    // A poke that the bus refused.
    Bus(Fault),
    // A run of more than 1,000,000 steps.
    Budget,
    // A byte that the bus did not take.
    Feed(FeedRefusal),
}

impl End {
    pub fn number(self) -> u8
        ensures { result ≡ end_number self }
    {
        self as u8
    }
}

impl Refusal {
    pub fn number(self) -> u8
        ensures { result ≡ (refusal_numbers self).number }
    {
        // a match: `as` takes no enum whose variants hold values
        match self {
            Refusal::Misaligned => 10,
            Refusal::Bus(_) => 11,
            Refusal::Budget => 12,
            Refusal::Feed(why) => why.number(),
        }
    }
}

impl From<Fault> for Refusal {
    ghost from_gives = { λ fault refusal. refusal ≡ Bus fault };

    fn from(fault: Fault) -> Self {
        Refusal::Bus(fault)
    }
}

impl From<FeedRefusal> for Refusal {
    ghost from_gives = { λ why refusal. refusal ≡ Feed why };

    fn from(why: FeedRefusal) -> Self {
        Refusal::Feed(why)
    }
}

// The same in hart, image, loader and machine: only a type's own crate can give it `Display`, so a shared trait would still need an impl in each.
impl fmt::Display for Refusal {
    ghost output = { λ refusal. Some (refusal_text refusal) };

    fn fmt<W: fmt::Write>(&self, f: &mut fmt::Formatter<W>) -> fmt::Result {
        write!(f, "refused {}", self.number())
    }
}

impl Error for Refusal {}
