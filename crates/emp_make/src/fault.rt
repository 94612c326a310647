//! Why there is no market.
ghost use Rattle.std.specs.Prelude.{◌≡◌};

use emp_list::memory::NoMemory;
use std::alloc::AllocError;

/// Why no market is made.
#[derive(Clone, Copy, Debug, PartialEq, Eq)]
pub enum MakeFault {
    /// The number of firms is outside 2 to 40.
    Firms,
    /// There was no memory for the market.
    NoMemory,
}

impl From<AllocError> for MakeFault {
    ghost use Rattle.emp_make.specs.declared.fault.MakeFault.TheVariants.{NoMemory as WantOfMemory};

    ghost from_gives = { λ _ f. f ≡ WantOfMemory };

    fn from(_error: AllocError) -> MakeFault {
        MakeFault::NoMemory
    }
}

impl From<NoMemory> for MakeFault {
    ghost use Rattle.emp_make.specs.declared.fault.MakeFault.TheVariants.{NoMemory as WantOfMemory};

    ghost from_gives = { λ _ f. f ≡ WantOfMemory };

    fn from(_error: NoMemory) -> MakeFault {
        MakeFault::NoMemory
    }
}
