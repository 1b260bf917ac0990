// The rules of the numbers on examples, at and beyond each limit.
ghost use Rattle.std.specs.Prelude.{◌≡◌, pos};
ghost use Rattle.std.specs.Option.{option_map};
ghost use Rattle.algebra.specs.Pair.{multiple};
ghost use Rattle.number.specs.Limits.{kept};

use crate::kinds::{Drifting, Plain};
use crate::number::Number;
use algebra::Sign;
use std::test::Fail;

// 2^62 - 1, the largest size of a word, and half of the next number.
const TOP: i64 = (1 << 62) - 1;

const HALF: i64 = 1 << 61;

// Twice a number of any kind. From the trait alone it follows that no sum is refused once growth was granted.
fn doubled<K: Number>(x: K) -> Option<K>
    ensures { option_map K.means result ≡ kept K.limit (multiple (pos 2) (K.means x)) }
{
    if x.grows(1) { Some(x.add(x)) } else { None }
}

fn plain(value: i64) -> Result<Plain, Fail> {
    Plain::make(value, 0).ok_or_else(|| Fail::new("too large"))
}

fn drifting(value: i64, drift: i64) -> Result<Drifting, Fail> {
    Drifting::make(value, drift).ok_or_else(|| Fail::new("too large"))
}

fn word(x: Option<Plain>) -> Option<i64> {
    x.map(|x| x.value)
}

fn words(x: Option<Drifting>) -> Option<(i64, i64)> {
    x.map(|x| (x.value, x.drift))
}

#[test]
fn makes(rt: HostRuntime) {
    // the two words, and what a plain and a drifting number make of them
    let table = [
        (0, 0, Some(0), Some((0, 0))),
        (TOP, 0, Some(TOP), Some((TOP, 0))),
        (-TOP, 0, Some(-TOP), Some((-TOP, 0))),
        (TOP + 1, 0, None, None),
        (-TOP - 1, 0, None, None),
        (i64::MIN, 0, None, None),
        (5, 1, None, Some((5, 1))),
        (5, TOP, None, Some((5, TOP))),
        (5, -TOP, None, Some((5, -TOP))),
        (5, TOP + 1, None, None),
        (5, -TOP - 1, None, None),
        (5, i64::MIN, None, None),
    ];
    for (value, drift, in_plain, in_drifting) in table {
        assert_eq!(rt; word(Plain::make(value, drift)), in_plain);
        assert_eq!(rt; words(Drifting::make(value, drift)), in_drifting);
    }
}

#[test]
fn adds(rt: HostRuntime) -> Result<(), Fail> {
    // two words and their sum, as plain numbers and as either part of drifting ones
    let table = [
        (5, -7, Some(-2)),
        (TOP, -TOP, Some(0)),
        (TOP - 1, 1, Some(TOP)),
        (TOP, 1, None),
        (TOP, TOP, None),
        (1 - TOP, -1, Some(-TOP)),
        (-TOP, -1, None),
        (-TOP, -TOP, None),
    ];
    for (a, b, sum) in table {
        assert_eq!(rt; word(plain(a)?.plus(plain(b)?)), sum);
        assert_eq!(rt;
            words(drifting(a, 1)?.plus(drifting(b, 2)?)),
            sum.zip(Some(3))
        );
        assert_eq!(rt;
            words(drifting(1, a)?.plus(drifting(2, b)?)),
            Some(3).zip(sum)
        );
    }
    Ok(())
}

#[test]
fn doubles(rt: HostRuntime) -> Result<(), Fail> {
    assert_eq!(rt; word(doubled(plain(HALF - 1)?)), Some(TOP - 1));
    assert_eq!(rt; word(doubled(plain(HALF)?)), None);
    assert_eq!(rt; words(doubled(drifting(1 - HALF, 3)?)), Some((1 - TOP, 6)));
    assert_eq!(rt; words(doubled(drifting(3, -HALF)?)), None);
    Ok(())
}

#[test]
fn signs(rt: HostRuntime) -> Result<(), Fail> {
    // value, drift, the value's sign, the pair's sign
    let table = [
        (0, 0, Sign::Zero, Sign::Zero),
        (0, 1, Sign::Zero, Sign::Positive),
        (0, -1, Sign::Zero, Sign::Negative),
        (1, -TOP, Sign::Positive, Sign::Positive),
        (-1, TOP, Sign::Negative, Sign::Negative),
        (TOP, 0, Sign::Positive, Sign::Positive),
        (-TOP, 0, Sign::Negative, Sign::Negative),
    ];
    for (value, drift, without, with) in table {
        assert_eq!(rt; plain(value)?.sign(), without);
        assert_eq!(rt; drifting(value, drift)?.sign(), with);
    }
    Ok(())
}

#[test]
fn grows(rt: HostRuntime) -> Result<(), Fail> {
    // a word, how often it is doubled, and whether it may be
    let table = [
        (TOP, 0, true),
        (-TOP, 0, true),
        (TOP, 1, false),
        ((1 << 54) - 1, 8, true),
        (1 << 54, 8, false),
        (1 - (1 << 54), 8, true),
        (-(1 << 54), 8, false),
        (1, 61, true),
        (2, 61, false),
        (0, 62, true),
        (1, 62, false),
        (0, 63, true),
        (1, 63, false),
        (0, 64, true),
        (1, 64, false),
        (0, 100, true),
        (-1, 100, false),
        (0, u32::MAX, true),
        (1, u32::MAX, false),
    ];
    for (x, n, may) in table {
        assert_eq!(rt; plain(x)?.grows(n), may);
        assert_eq!(rt; drifting(x, 0)?.grows(n), may);
        assert_eq!(rt; drifting(0, x)?.grows(n), may);
    }
    Ok(())
}
