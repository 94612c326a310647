//! Why a point has no way back.
ghost use Rattle.std.specs.Prelude.{◌≡◌};

use emp_list::memory::NoMemory;
use std::alloc::AllocError;

/// Why a point of the target gives no point of the source.
#[derive(Clone, Copy, Debug, PartialEq, Eq)]
pub enum BackFault {
    /// There was no memory for the source point.
    NoMemory,
    /// The first coordinate of the source point, counted from 0, whose fold forms a wide number.
    Wide(u32),
}

impl From<AllocError> for BackFault {
    ghost use Rattle.emp_reform.specs.declared.fault.BackFault.TheVariants.{NoMemory as WantOfMemory};

    ghost from_gives = { λ _ e. e ≡ WantOfMemory };

    fn from(_fault: AllocError) -> BackFault {
        BackFault::NoMemory
    }
}

impl From<NoMemory> for BackFault {
    ghost use Rattle.emp_reform.specs.declared.fault.BackFault.TheVariants.{NoMemory as WantOfMemory};

    ghost from_gives = { λ _ e. e ≡ WantOfMemory };

    fn from(_fault: NoMemory) -> BackFault {
        BackFault::NoMemory
    }
}
