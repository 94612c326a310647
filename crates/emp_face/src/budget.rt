//! Units of work.
ghost use Rattle.std.specs.Prelude.{◌≡◌, ◌≢◌, ◌≤◌, ◌+◌};

/// No unit of work is left.
#[derive(Clone, Copy, Debug, PartialEq, Eq)]
pub struct Spent;

/// How many units of work may be taken, and how many were.
#[derive(Drop)]
pub struct Budget {
    pub limit: u64,
    pub used: u64,
    pub ghost kept: { used ≤ limit },
}

impl Budget {
    ghost use Rattle.emp_face.specs.Budgets.{TakeGives};

    /// A budget of which nothing is used.
    pub fn new(limit: u64) -> Budget
        ensures limit { result.limit ≡ limit }
        ensures used { result.used ≡ 0 }
    {
        Budget { limit, used: 0 }
    }

    /// Takes one unit. `Spent` exactly where as many were taken as may be, and nothing changes then.
    pub fn take(&mut self) -> Result<(), Spent>
        ensures { TakeGives self.old self.new result }
    {
        if self.used == self.limit {
            return Err(Spent);
        }
        self.used += 1;
        Ok(())
    }
}
