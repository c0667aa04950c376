ghost use Rattle.std.specs.Prelude.{◌≡◌, ◌+◌, ◌<◌};
ghost use Rattle.image.specs.Records.{Records, record_at, record_if_any, holds, Finds, FindsIn};

// A range of addresses. No `Range<u32>`: its end could not be 2^32.
#[derive(Clone, Copy, PartialEq, Eq, Debug)]
pub struct Record {
    pub start: u32,
    pub size: u32,
}

impl Record {
    // The record that holds no address.
    pub const NONE: Record = Record { start: 0, size: 0 };

    // Whether an address lies in the record.
    pub fn holds(&self, a: u32) -> bool
        ensures { result ≡ holds self.now a }
    {
        self.start <= a && a - self.start < self.size
    }
}

// A table whose records have a start and a size. An index past its end gives the record that holds no address.
pub trait RecordTable {
    ghost records: { Self → Records };

    fn len(&self) -> usize
        ensures { result ≡ (records self.now).count };

    fn record(&self, i: usize) -> Record
        ensures { result ≡ record_at (records self.now) i };

    // Record `i`; past the end there is none.
    fn get(&self, i: usize) -> Option<Record>
        ensures { result ≡ record_if_any (records self.now) i }
    {
        if i < self.len() {
            Some(self.record(i))
        } else {
            None
        }
    }
}

// The better of the best so far and record `i`.
fn better<T: RecordTable>(table: &T, a: u32, best: Option<usize>, i: usize) -> Option<usize>
    requires i_bound { i < (T.records table.now).count }
    requires finds_in { FindsIn (T.records table.now) i a best }
    ensures { FindsIn (T.records table.now) (i + 1) a result }
{
    let Some(record) = table.get(i).filter(|r| r.holds(a)) else {
        return best;
    };
    match best.and_then(|j| table.get(j)) {
        Some(other) if record.start <= other.start => best,
        _ => Some(i),
    }
}

// The record that holds an address: of several the one that starts last, and of those the first in the table.
// A rule of the project: the search is over an interface of records by index, and a chain would go through the same range.
pub fn find<T: RecordTable>(table: &T, a: u32) -> Option<usize>
    ensures { Finds (T.records table.now) a result }
{
    let mut best = None;
    for i in 0..table.len() {
        best = better(table, a, best, i);
    }
    best
}
