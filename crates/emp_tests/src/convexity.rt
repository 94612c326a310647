//! Squares by elimination.
use emp_ldl::check::check_squares;
use emp_ldl::convex::convex;
use emp_ldl::matrix::Matrix;
use emp_list::seq::Seq;
use emp_num::frac::Frac;
use std::alloc::Global;
use std::test::Fail;

fn cells_of(alloc: Global, cells: &[(i128, i128)]) -> Result<Seq<Frac>, Fail> {
    let mut list = Seq::new(alloc);
    for cell in cells {
        list.push(Frac::new(cell.0, cell.1)?)?;
    }
    Ok(list)
}

#[test]
fn squares_show(rt: HostRuntime) -> Result<(), Fail> {
    // 2x^2 + 2xy + y^2, and 2xz beside them
    let cells = [
        (2, 1),
        (1, 1),
        (1, 1),
        (1, 1),
        (1, 1),
        (0, 1),
        (1, 1),
        (0, 1),
        (1, 1),
    ];
    let Some(matrix) = Matrix::new(3, cells_of(rt.alloc(), &cells)?) else {
        return Ok(());
    };
    assert!(rt; matrix.is_symmetric());
    if let Ok(squares) = convex(rt.alloc(), &matrix) {
        assert_eq!(rt; squares.pivots.get(1).num, 1);
        assert_eq!(rt; squares.pivots.get(1).den, 2);
        assert_eq!(rt; squares.residuals.get(2).num, -1);
        assert_eq!(rt; squares.residuals.get(2).den, 2);
        assert_eq!(rt; squares.pivots.get(2).num, 0);
        assert!(rt; check_squares(&matrix, &squares) == Ok(true));
    } else {
        assert!(rt; false);
    }
    Ok(())
}
