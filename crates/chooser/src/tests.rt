// The choosers on questions worked out by hand.
ghost use Rattle.std.specs.Prelude.{◌≡◌};
ghost use Rattle.std.proofs.Common.{rules};

use crate::alternating::Alternating;
use crate::by_signs::BySigns;
use crate::chooser::Chooser;
use crate::evening::Evening;
use crate::question::Question;
use algebra::{Half, Sign};

const N: Sign = Sign::Negative;

const Z: Sign = Sign::Zero;

const P: Sign = Sign::Positive;

// A chooser that counts what it is asked: it changes with every question, and its meaning does not.
#[derive(Drop)]
struct Counting<C> {
    below: C,
    count: u8,
}

impl<C: Chooser> Chooser for Counting<C> {
    ghost meaning = { λ c. C.Chooser.meaning c.below };

    ghost picks = { Prim.search rules };

    fn choose(&mut self, question: Question) -> (usize, Half) {
        self.count = self.count.wrapping_add(1);
        self.below.choose(question)
    }
}

// From the trait alone it follows that a question gets its answer again, whatever was asked in between.
fn twice<C: Chooser>(
    chooser: &mut C,
    question: Question,
    other: Question,
) -> ((usize, Half), (usize, Half))
    ensures { result.0 ≡ result.1 }
{
    let first = chooser.choose(question);
    let _ = chooser.choose(other);
    (first, chooser.choose(question))
}

fn alternated(degrees: &[u8], depth: u32) -> (usize, Half) {
    Alternating.choose(Question {
        degrees,
        halvings: &[],
        depth,
        signs: &[],
    })
}

fn by_signs(degrees: &[u8], signs: &[Sign]) -> (usize, Half) {
    BySigns.choose(Question {
        degrees,
        halvings: &[],
        depth: 0,
        signs,
    })
}

// The layer over the axes in turn, at depth 0, where axis 0 is the turn's.
fn evened(gap: u8, degrees: &[u8], halvings: &[u8]) -> Option<(usize, Half)> {
    let mut layer = Evening::over(Alternating, gap).ok()?;
    Some(layer.choose(Question {
        degrees,
        halvings,
        depth: 0,
        signs: &[],
    }))
}

#[test]
fn alternates(rt: HostRuntime) {
    let cases: [(&[u8], u32, usize); 5] = [
        (&[1, 2, 3, 4], 0, 0),
        (&[1, 2, 3, 4], 6, 2),
        (&[1, 2, 3, 4], u32::MAX, 3),
        // one axis, and none
        (&[8], 7, 0),
        (&[], 7, 0),
    ];
    for (degrees, depth, axis) in cases {
        assert!(rt;
            alternated(degrees, depth) == (axis, Half::Lower),
            "axis {axis}"
        );
    }
}

#[test]
fn reads_signs(rt: HostRuntime) {
    let cases: [(&[u8], &[Sign], usize, Half); 9] = [
        // one axis: the negative numbers lie above, below, at both ends
        (&[2], &[P, Z, N], 0, Half::Upper),
        (&[2], &[N, N, P], 0, Half::Lower),
        (&[2], &[N, P, N], 0, Half::Lower),
        // as many changes along both axes; none at all; zero is no positive sign
        (&[1, 1], &[P, N, N, N], 0, Half::Upper),
        (&[1, 1], &[Z, Z, Z, Z], 0, Half::Lower),
        (&[1, 1], &[P, Z, P, Z], 1, Half::Lower),
        // four axes, the third of degree 2
        (
            &[1, 1, 2, 1],
            &[
                P, P, P, P, N, N, P, P, P, P, N, N, P, P, P, P, N, N, P, P, P, P, N, Z,
            ],
            2,
            Half::Upper,
        ),
        // no axes, and a sign too few
        (&[], &[N], 0, Half::Lower),
        (&[1, 1], &[P, Z, N], 0, Half::Lower),
    ];
    for (degrees, signs, axis, half) in cases {
        assert!(rt; by_signs(degrees, signs) == (axis, half), "axis {axis}");
    }
}

#[test]
fn evens(rt: HostRuntime) {
    let cases: [(u8, &[u8], &[u8], usize); 8] = [
        (2, &[1, 1], &[3, 1], 1),
        (2, &[1, 1], &[2, 1], 0),
        (1, &[1, 1], &[1, 0], 1),
        (24, &[1, 1], &[24, 0], 1),
        (24, &[1, 1], &[23, 0], 0),
        // one axis; the lowest of two least halved; nothing said of axis 1
        (1, &[1], &[9], 0),
        (2, &[1, 1, 1, 1], &[5, 3, 2, 2], 2),
        (2, &[1, 1], &[2], 1),
    ];
    for (gap, degrees, halvings, axis) in cases {
        assert!(rt;
            evened(gap, degrees, halvings) == Some((axis, Half::Lower)),
            "gap {gap}"
        );
    }
}

#[test]
fn refuses_gaps(rt: HostRuntime) {
    for gap in [0, 25, 255] {
        assert!(rt; Evening::over(Alternating, gap).is_err_and(|bad| u8::from(&bad) == 18));
    }
    assert!(rt; evened(1, &[1], &[0]).is_some() && evened(24, &[1], &[0]).is_some());
}

#[test]
fn keeps_its_meaning(rt: HostRuntime) {
    let question = Question {
        degrees: &[1, 1],
        halvings: &[1, 0],
        depth: 1,
        signs: &[P, N, P, N],
    };
    let mut chooser = Counting {
        below: BySigns,
        count: 0,
    };
    let other = Question {
        depth: 2,
        ..question
    };
    let (first, second) = twice(&mut chooser, question, other);
    assert!(rt; first == (1, Half::Upper) && second == (1, Half::Upper));
    assert_eq!(rt; chooser.count, 3);
}
