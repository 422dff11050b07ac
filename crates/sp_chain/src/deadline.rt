ghost use Rattle.std.specs.Prelude.{◌≡◌};
ghost use Rattle.sp_chain.specs.Deadlines.{earlier, is_before};

/// The moment at which a numbered value is due.
#[derive(Clone, Copy, Debug, PartialEq, Eq)]
pub struct Deadline {
    /// In milliseconds.
    pub moment: u64,
    pub number: u64,
}

impl Deadline {
    /// Whether it stands before another in order of moment and then of number.
    pub fn is_before(&self, other: &Deadline) -> bool
        ensures { result ≡ is_before self.now other.now }
    {
        if self.moment == other.moment {
            self.number < other.number
        } else {
            self.moment < other.moment
        }
    }
}

/// The one that stands before the other, where both are there.
pub fn earlier(one: Option<Deadline>, other: Option<Deadline>) -> Option<Deadline>
    ensures { result ≡ earlier one other }
{
    match (one, other) {
        (Some(a), Some(b)) => { if b.is_before(&a) { other } else { one } }
        (None, _) => other,
        (_, None) => one,
    }
}
