//! Exact numbers.

mod exact {
    use emp_num::exact::{LIMIT, Wide, gcd, product, sum};

    #[test]
    fn bounds(rt: HostRuntime) {
        for (a, b, added, multiplied) in [
            (LIMIT - 1, 0, Ok(LIMIT - 1), Ok(0)),
            (LIMIT - 1, 1, Err(Wide), Ok(LIMIT - 1)),
            (1 - LIMIT, -1, Err(Wide), Ok(LIMIT - 1)),
            (i128::MAX, 1, Err(Wide), Err(Wide)),
            (LIMIT / 2, 2, Ok(LIMIT / 2 + 2), Err(Wide)),
        ] {
            assert!(rt; sum(a, b) == added, "{a} {b}");
            assert!(rt; product(a, b) == multiplied, "{a} {b}");
        }
    }

    #[test]
    fn divisors(rt: HostRuntime) {
        for (a, b, expected) in [
            (0, 0, 0),
            (-12, 18, 6),
            (0, 1 - LIMIT, LIMIT - 1),
            (LIMIT - 1, LIMIT - 2, 1),
        ] {
            assert_eq!(rt; gcd(a, b), expected);
        }
    }
}

mod content {
    use emp_num::content::content_with;

    #[test]
    fn contents(rt: HostRuntime) {
        assert_eq!(rt; content_with(0, &[6, -9, 0]), 3);
        assert_eq!(rt; content_with(4, &[]), 4);
        assert_eq!(rt; content_with(0, &[0]), 0);
    }
}

mod frac {
    use emp_num::exact::Wide;
    use emp_num::frac::{DivFault, Frac};
    use std::test::Fail;

    const MOST: i128 = 85070591730234615865843651857942052863;

    const HALF: i128 = 9223372036854775808;

    #[test]
    fn fractions(rt: HostRuntime) -> Result<(), Fail> {
        for (num, den, expected) in [
            (MOST, 1, Ok((MOST, 1))),
            (-MOST, MOST, Ok((-1, 1))),
            (6, -4, Ok((-3, 2))),
            (0, -5, Ok((0, 1))),
            (MOST + 1, 1, Err(DivFault::Wide)),
            (2, MOST + 1, Err(DivFault::Wide)),
            (-MOST - 1, 2, Err(DivFault::Wide)),
            (MOST + 1, 0, Err(DivFault::Zero)),
        ] {
            let found = Frac::new(num, den).map(|f| (f.num(), f.den()));
            assert!(rt; found == expected, "{num} {den}");
        }
        Ok(())
    }

    #[test]
    fn sums(rt: HostRuntime) -> Result<(), Fail> {
        for (a, b, added, subtracted) in [
            ((1, 2), (1, 3), Ok((5, 6)), Ok((1, 6))),
            ((MOST, 1), (0, 1), Ok((MOST, 1)), Ok((MOST, 1))),
            ((MOST, 1), (-MOST, 1), Ok((0, 1)), Err(Wide)),
            ((MOST, 1), (1, 1), Err(Wide), Ok((MOST - 1, 1))),
            ((MOST, 1), (1, 2), Err(Wide), Err(Wide)),
            ((1, MOST), (-1, MOST), Err(Wide), Err(Wide)),
            ((1, HALF), (1, HALF), Err(Wide), Err(Wide)),
        ] {
            let x = Frac::new(a.0, a.1)?;
            let y = Frac::new(b.0, b.1)?;
            let sum = Frac::add(x, y).map(|f| (f.num, f.den));
            let difference = Frac::sub(x, y).map(|f| (f.num, f.den));
            assert!(rt; sum == added, "{x:?} {y:?}");
            assert!(rt; difference == subtracted, "{x:?} {y:?}");
        }
        Ok(())
    }

    #[test]
    fn products(rt: HostRuntime) -> Result<(), Fail> {
        for (a, b, expected) in [
            ((-2, 3), (9, 4), Ok((-3, 2))),
            ((MOST, 1), (1, 1), Ok((MOST, 1))),
            ((HALF, 1), (HALF / 2, 1), Ok((HALF / 2 * HALF, 1))),
            ((HALF, 1), (HALF, 1), Err(Wide)),
            ((HALF, 3), (3, HALF), Ok((1, 1))),
            ((MOST, 2), (2, MOST), Err(Wide)),
        ] {
            let x = Frac::new(a.0, a.1)?;
            let y = Frac::new(b.0, b.1)?;
            let found = Frac::mul(x, y).map(|f| (f.num, f.den));
            assert!(rt; found == expected, "{x:?} {y:?}");
        }
        Ok(())
    }

    #[test]
    fn quotients(rt: HostRuntime) -> Result<(), Fail> {
        for (a, b, expected) in [
            ((1, 2), (-3, 4), Ok((-2, 3))),
            ((0, 1), (-3, 4), Ok((0, 1))),
            ((MOST, 1), (-MOST, 1), Ok((-1, 1))),
            ((MOST, 1), (1, 2), Err(DivFault::Wide)),
            ((1, MOST), (1, MOST), Ok((1, 1))),
            ((2, MOST), (2, MOST), Err(DivFault::Wide)),
            ((MOST, 1), (0, 1), Err(DivFault::Zero)),
        ] {
            let x = Frac::new(a.0, a.1)?;
            let y = Frac::new(b.0, b.1)?;
            let found = Frac::div(x, y).map(|f| (f.num, f.den));
            assert!(rt; found == expected, "{x:?} {y:?}");
        }
        let least = Frac::neg(Frac::new(MOST, 2)?);
        assert_eq!(rt; least.num, -MOST);
        assert_eq!(rt; least.den, 2);
        Ok(())
    }
}

mod order {
    use emp_num::frac::Frac;
    use std::cmp::Ordering;
    use std::test::Fail;

    const MOST: i128 = 85070591730234615865843651857942052863;

    #[test]
    fn orders(rt: HostRuntime) -> Result<(), Fail> {
        for (a, b, expected) in [
            ((1, 3), (1, 2), Ordering::Less),
            ((-1, 3), (-1, 2), Ordering::Greater),
            ((-1, MOST), (0, 1), Ordering::Less),
            ((0, 1), (-1, MOST), Ordering::Greater),
            ((MOST, 1), (MOST, 1), Ordering::Equal),
            ((-MOST, 1), (MOST, 1), Ordering::Less),
            ((MOST, MOST - 1), (MOST - 1, MOST - 2), Ordering::Less),
            ((-MOST, MOST - 1), (1 - MOST, MOST - 2), Ordering::Greater),
            ((355, 113), (22, 7), Ordering::Less),
        ] {
            let found = Frac::cmp(Frac::new(a.0, a.1)?, Frac::new(b.0, b.1)?);
            assert!(rt; found == expected, "{a:?} {b:?}");
        }
        Ok(())
    }
}

mod print {
    use emp_num::frac::Frac;
    use emp_numeral::print::print_frac;
    use std::test::Fail;

    const MOST: i128 = 85070591730234615865843651857942052863;

    #[test]
    fn texts(rt: HostRuntime) -> Result<(), Fail> {
        for (num, den, expected) in [
            (0, 7, "0"),
            (12, -586, "-6/293"),
            (
                -MOST,
                MOST - 1,
                "-85070591730234615865843651857942052863/85070591730234615865843651857942052862",
            ),
        ] {
            let mut out = [0; 96];
            let end = print_frac(Frac::new(num, den)?, &mut out);
            assert!(rt; &out[..end] == expected.as_bytes(), "{expected}");
        }
        Ok(())
    }
}

mod numeral {
    use emp_numeral::numeral::{NumeralFault, read_numeral};

    #[test]
    fn texts_that_are_none(rt: HostRuntime) {
        for text in [
            "", ".", "e5", ".e5", "1e", "1e+", "1e+-2", "1e2.", "..5", "5..", "-1", " 1", "1 ",
        ] {
            assert!(rt;
                read_numeral(text.as_bytes()) == Err(NumeralFault::Form),
                "{text}"
            );
        }
    }
}
