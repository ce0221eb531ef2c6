ghost use Rattle.std.specs.Prelude.{◌≡◌, ◌+◌, ◌^◌, ◌<◌, ◌↔◌, All, Contains, IsTrue};
ghost use Rattle.sg_io.specs.Causes.{raised};

/// The calls of an object in memory, numbered from 1: which of them fail, how many there were, and
/// how many failed.
#[derive(Debug, Drop)]
pub(crate) struct Calls {
    pub(crate) fails: Vec<u32>,
    pub(crate) made: u64,
    pub(crate) faults: u64,
}

impl Calls {
    /// No call yet.
    pub(crate) fn new(fails: Vec<u32>) -> Calls
        ensures { result ≡ record { fails = fails; made = 0; faults = 0 } }
    {
        Calls {
            fails,
            made: 0,
            faults: 0,
        }
    }

    /// Counts one more call, and answers whether it is one of those that fail.
    ///
    /// The count stays at its last value, which is above each number of 32 bits, so the answer is
    /// right for every call.
    pub(crate) fn is_next_failing(&mut self) -> bool
        ensures listed { IsTrue result ↔ Contains self.old.fails.items (self.old.made + 1) }
        ensures after { self.new ≡ record self.old { made = raised self.old.made } }
    {
        self.made = self.made.saturating_add(1);
        is_listed(self.fails.as_slice(), self.made)
    }
}

fn is_listed(numbers: &[u32], number: u64) -> bool
    ensures listed { IsTrue result ↔ Contains numbers.now number }
    ensures small { All (λ listed. listed < 2 ^ 32) numbers.now }
{
    numbers.iter().any(|listed| u64::from(*listed) == number)
}
