// What the smaller texts look like.
use super::axis::{AxisLine, Interval};
use super::polynomial::Polynomial;
use std::test::Fail;
use ticket::{Axis, Term};

fn axis(lower_open: bool, upper_open: bool) -> Axis {
    Axis {
        degree: 3,
        lower: -5,
        upper: 30000,
        lower_open,
        upper_open,
    }
}

fn term(coefficient: i32, exponents: [u8; 4], drift: i32) -> Term {
    Term {
        exponents,
        coefficient,
        drift,
    }
}

#[test]
fn an_open_end_has_a_round_bracket(rt: HostRuntime) -> Result<(), Fail> {
    let open = Interval(axis(true, true));
    let closed = AxisLine {
        number: 3,
        axis: axis(false, false),
    };
    let text = format!(in rt.alloc(); "{open} {closed}")?;
    assert_eq!(rt;
        text.as_str(),
        "(-5, 30000) axis 3: x3 in [-5, 30000], degree 3"
    );
    Ok(())
}

#[test]
fn a_sum_shows_signs_between_its_terms(rt: HostRuntime) -> Result<(), Fail> {
    let terms = [
        term(-1, [1, 0, 0, 2], 0),
        term(1, [0, 0, 0, 0], 0),
        term(4, [2, 1, 0, 0], -3),
        term(i32::MIN, [0, 8, 1, 1], 0),
        term(-1, [0, 0, 0, 0], i32::MIN),
        term(0, [0, 0, 1, 0], 0),
    ];
    let sum = Polynomial(&terms);
    let text = format!(in rt.alloc(); "{sum}")?;
    assert_eq!(rt;
        text.as_str(),
        "-x0*x3^2 + 1 + 4*x0^2*x1 (drift -3) - 2147483648*x1^8*x2*x3 - 1 (drift -2147483648) + 0*x2"
    );
    Ok(())
}

#[test]
fn no_terms_are_zero(rt: HostRuntime) -> Result<(), Fail> {
    let sum = Polynomial(&[]);
    let text = format!(in rt.alloc(); "{sum}")?;
    assert_eq!(rt; text.as_str(), "0");
    Ok(())
}

#[test]
fn a_first_term_of_size_one_has_no_sign(rt: HostRuntime) -> Result<(), Fail> {
    let terms = [term(1, [1, 0, 0, 0], 2)];
    let sum = Polynomial(&terms);
    let text = format!(in rt.alloc(); "{sum}")?;
    assert_eq!(rt; text.as_str(), "x0 (drift 2)");
    Ok(())
}
