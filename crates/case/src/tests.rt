// The case of which no ticket was taken yet, as the rules work it out: -1 > 0 strictly between 0 and 1.
use crate::case::Case;
use chooser::Alternating;
use number::{Number, Plain};
use search::{CallRefusal, Coordinate, Verdict, Word};
use std::test::Fail;

fn verdict(word: Word, examined: u32, waiting: u32, aside_depth: u32) -> Verdict {
    Verdict {
        word,
        examined,
        waiting,
        aside_depth,
        aside_range: 0,
    }
}

#[test]
fn stands_open_at_depth_0(rt: HostRuntime) -> Result<(), Fail> {
    let case = Case::<Plain>::new(rt.alloc())?;
    assert_eq!(rt; case.verdict(), verdict(Word::Open, 1, 0, 1));
    assert_eq!(rt; case.ceiling(), 1);
    assert_eq!(rt; case.point().err(), Some(CallRefusal::NoPoint));
    Ok(())
}

#[test]
fn fails_in_the_middle_at_depth_1(rt: HostRuntime) -> Result<(), Fail> {
    let zero = Plain::make(0, 0).ok_or_else(|| Fail::new("no zero"))?;
    // a patch has two numbers: depth 1 wants (1 + 3) * 2 of them
    let mut short = [zero; 7];
    let mut work = [zero; 8];
    let mut case = Case::<Plain>::new(rt.alloc())?;
    assert_eq!(rt; case.deepen(1, &mut short), Err(CallRefusal::Workspace));
    assert_eq!(rt; case.deepen(0, &mut work), Err(CallRefusal::NotDeeper));
    assert_eq!(rt; case.deepen(1, &mut work), Ok(1));
    assert_eq!(rt; case.verdict(), verdict(Word::Running, 0, 1, 0));
    assert_eq!(rt; case.run(5, &mut work, &mut Alternating), Ok(2));
    assert_eq!(rt; case.verdict(), verdict(Word::Fails, 2, 0, 0));
    let point = case.point().ok();
    let half = Coordinate {
        numerator: 1,
        power: 1,
    };
    assert!(rt; point.is_some_and(|x| x.as_slice() == [half].as_slice()));
    Ok(())
}
