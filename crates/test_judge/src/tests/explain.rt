//! What a verdict says where memory is refused.
use super::plain::{judge_record, least_record};
use kfifo_judge::Outcome;
use std::test::Fail;

/// Two items are got in the other order than they were put.
const EXCHANGED: &str = r#"[{"thread":0,"op":"enq","item":1,"first":0,"last":1,"answer":"done"},
{"thread":0,"op":"enq","item":2,"first":2,"last":3,"answer":"done"},
{"thread":1,"op":"deq","first":4,"last":5,"answer":"got","item":2},
{"thread":1,"op":"deq","first":6,"last":7,"answer":"got","item":1}]"#;

const NO_ORDER: &str = "\
no order for k = 1
call 2 got item 2, while 1 older item was there: calls 0
  call 2: thread 1 got 2 from 4 to 5
  call 0: thread 0 put 1 from 0 to 1, got by call 3
calls 4, items left 0
k at least 2
k at most 2
";

/// Item 1 is put twice, and one of the enqueues has not ended.
const REPEATED: &str = r#"[{"thread":0,"op":"enq","item":1,"first":0,"last":1,"answer":"done"},
{"thread":1,"op":"enq","item":1,"first":2},
{"thread":2,"op":"deq","first":4,"last":5,"answer":"got","item":1}]"#;

/// Holds with each allocation failing in turn: what is said after a refusal is the answer.
#[test]
fn refused_memory(rt: HostRuntime) -> Result<(), Fail> {
    let found = match judge_record(rt.alloc(), EXCHANGED, 1, 9, true) {
        Ok(answer) => Ok(answer),
        Err(_) => judge_record(rt.alloc(), EXCHANGED, 1, 9, true),
    };
    if let Ok((text, said)) = found {
        assert_eq!(rt; (text.as_str(), said), (NO_ORDER, Outcome::Unordered));
    } else {
        assert!(rt; false, "judge was refused memory twice");
    }
    let found = match least_record(rt.alloc(), EXCHANGED, 9) {
        Ok(answer) => Ok(answer),
        Err(_) => least_record(rt.alloc(), EXCHANGED, 9),
    };
    if let Ok((text, said)) = found {
        assert_eq!(rt;
            (text.as_str(), said),
            ("k at least 2\nk at most 2\n", Outcome::Answered)
        );
    } else {
        assert!(rt; false, "least was refused memory twice");
    }
    Ok(())
}

/// The same of items that repeat.
#[test]
fn refused_memory_of_repeats(rt: HostRuntime) -> Result<(), Fail> {
    let found = match judge_record(rt.alloc(), REPEATED, 1, 9, true) {
        Ok(answer) => Ok(answer),
        Err(_) => judge_record(rt.alloc(), REPEATED, 1, 9, true),
    };
    if let Ok((text, _)) = found {
        assert!(rt; text.as_str().ends_with("\n"), "no line feed");
    } else {
        assert!(rt; false, "judge was refused memory twice");
    }
    Ok(())
}
