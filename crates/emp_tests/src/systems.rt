//! Small row systems over the base variables x and y.
ghost use Rattle.std.specs.Prelude.{◌≡◌, length, IfOk};
ghost use Rattle.std.specs.List.{All};
ghost use Rattle.emp_num.specs.Exact.{IsNarrow};
ghost use Rattle.emp_rows.specs.Affine.{IsRow};

use emp_list::seq::Seq;
use emp_rows::affine::Affine;
use emp_rows::system::{Kind, RowSystem};
use std::alloc::Global;
use std::test::Fail;

// x, y - 1, y and x with a constant.
fn paired_rows(alloc: Global, constant: i128) -> Result<Seq<Affine>, Fail>
    requires { IsNarrow constant }
    ensures rows { IfOk result (All (IsRow 2)) }
    ensures count { IfOk result (λ rows. length rows ≡ 4) }
{
    let mut rows = Seq::new(alloc);
    rows.push(Affine::primitive(alloc, &[1, 0], 0)?)?;
    rows.push(Affine::primitive(alloc, &[0, 1], -1)?)?;
    rows.push(Affine::primitive(alloc, &[0, 1], 0)?)?;
    rows.push(Affine::primitive(alloc, &[1, 0], constant)?)?;
    Ok(rows)
}

/// x at least 0 with y - 1, and y at least 0 with x and a constant. Where that is above 0 no point has a member of each pair 0.
pub fn paired(alloc: Global, constant: i128) -> Result<RowSystem, Fail>
    requires { IsNarrow constant }
    ensures { IfOk result (λ system. system.base ≡ 2) }
{
    Ok(RowSystem {
        base: 2,
        quantities: paired_rows(alloc, constant)?,
        kinds: Seq::of_slice(alloc, &[Kind::Nonneg; 4])?,
        pairs: Seq::of_slice(alloc, &[(1, 2), (3, 4)])?,
        objective: None,
    })
}

// x and 3 - x.
fn falling_rows(alloc: Global) -> Result<Seq<Affine>, Fail>
    ensures rows { IfOk result (All (IsRow 2)) }
    ensures count { IfOk result (λ rows. length rows ≡ 2) }
{
    let mut rows = Seq::new(alloc);
    rows.push(Affine::primitive(alloc, &[1, 0], 0)?)?;
    rows.push(Affine::primitive(alloc, &[-1, 0], 3)?)?;
    Ok(rows)
}

/// x from 0 to 3, and -x that is to be least.
pub fn falling(alloc: Global) -> Result<RowSystem, Fail>
    ensures { IfOk result (λ system. system.base ≡ 2) }
{
    Ok(RowSystem {
        base: 2,
        quantities: falling_rows(alloc)?,
        kinds: Seq::of_slice(alloc, &[Kind::Nonneg; 2])?,
        pairs: Seq::new(alloc),
        objective: Some(Affine::primitive(alloc, &[-1, 0], 0)?),
    })
}
