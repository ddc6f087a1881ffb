//! Where the bars of pictures stand, and a picture where memory is refused.
use super::plain::{draw, history_of};
use super::{begun, ended};
use kfifo_draw::{DrawFault, Style};
use kfifo_model::{Answer, Call, Op};
use std::alloc::Global;
use std::test::Fail;

/// A style in which a band has room for all calls of a test.
const WIDE: Style = Style::Svg { width: 4_000 };

/// A call of each kind by three threads; one ends at the step at which another begins.
fn all_kinds() -> [Call; 8] {
    [
        ended(0, Op::Enqueue(1), 0, 3, Answer::Done),
        ended(11, Op::Dequeue, 1, 20, Answer::Empty),
        ended(0, Op::Enqueue(2), 4, 30, Answer::Done),
        ended(3, Op::Dequeue, 20, 40, Answer::Got(1)),
        ended(11, Op::Enqueue(16_777_215), 25, 45, Answer::Full),
        ended(0, Op::Dequeue, 1_000_000, 1_000_000, Answer::Worn),
        begun(3, Op::Dequeue, 1_000_001),
        begun(11, Op::Enqueue(3), 1_000_002),
    ]
}

/// The picture of calls of each kind, with an order that fails, as lines.
const KINDS_ORDERED: &str = "\
thread 0   [0: enq 1 done #0][2: enq 2 done #1]             [5: deq worn #5]
thread 3                      [3: deq got 1 #2-]                            [6: deq----->
thread 11   [1: deq empty #4 fails][4: enq 16777215 full #3]                 [7: enq 3-->
the order fails at call 1: fault 4 breaks before
";

/// A bar of a picture: where its ends are, and how many characters its label has.
#[derive(Clone, Copy)]
struct Bar {
    left: usize,
    right: usize,
    label: usize,
}

/// The number that follows this text first.
fn number_after(text: &str, name: &str) -> Option<usize> {
    let (_, rest) = text.split_once(name)?;
    let (digits, _) = rest.split_once('"')?;
    digits.parse().ok()
}

/// The bar whose outline this piece of a picture begins with, and its label.
fn bar_of(piece: &str) -> Option<Bar> {
    let left = number_after(piece, "x=\"")?;
    let width = number_after(piece, "width=\"")?;
    let (_, text) = piece.split_once("<text ")?;
    let (_, rest) = text.split_once('>')?;
    let (label, _) = rest.split_once('<')?;
    Some(Bar {
        left,
        right: left.saturating_add(width),
        label: label.len(),
    })
}

/// The bars of a picture of finished calls, by their numbers, and then the key's.
fn bars_of(alloc: Global, picture: &str) -> Result<Vec<Bar>, Fail> {
    let mut bars = Vec::new(alloc);
    for piece in picture.split("<rect class=\"bar\" ").skip(1) {
        if let Some(bar) = bar_of(piece) {
            bars.push(bar)?;
        }
    }
    Ok(bars)
}

/// Whether two finished calls stand one behind the other: one's bar ends before the other's begins exactly where it
/// precedes it.
fn stand_as_they_precede(calls: &[Call], bars: &[Bar]) -> bool {
    for (call, bar) in calls.iter().zip(bars.iter()) {
        for (other, beside) in calls.iter().zip(bars.iter()) {
            let precedes = call.end.is_some_and(|end| end.last < other.first);
            if precedes != (bar.right < beside.left) {
                return false;
            }
        }
    }
    true
}

#[test]
fn bars_stand_as_calls_precede(rt: HostRuntime) -> Result<(), Fail> {
    let mut state = 1u64;
    for _ in 0..200 {
        let mut calls = Vec::new(rt.alloc());
        let mut free = [0u64; 4];
        let mut first = 0u64;
        for number in 0..12u32 {
            state = state
                .wrapping_mul(6_364_136_223_846_793_005)
                .wrapping_add(1_442_695_040_888_963_407);
            let thread = (state >> 33) as usize % 4;
            first = first
                .max(free[thread])
                .saturating_add(1 + (state >> 40) % 2);
            let last = first.saturating_add((state >> 50) % 9);
            free[thread] = last;
            calls.push(ended(
                thread as u32,
                Op::Enqueue(number + 1),
                first,
                last,
                Answer::Done,
            ))?;
        }
        let history = history_of(calls)?;
        let picture = draw(rt.alloc(), &history, WIDE, 1, None)?;
        let bars = bars_of(rt.alloc(), picture.as_str())?;
        // Behind the calls' come the four closed ones of the key.
        assert_eq!(rt; bars.len(), 16);
        assert!(rt; stand_as_they_precede(history.calls(), bars.as_slice()));
        for bar in bars.iter().take(12) {
            let letters = bar.label.saturating_mul(8);
            assert!(rt; bar.right.saturating_sub(bar.left) > letters);
        }
    }
    Ok(())
}

/// Holds with each allocation failing in turn: what is drawn after a refusal is the picture.
#[test]
fn refused_memory(rt: HostRuntime) -> Result<(), Fail> {
    let kinds = all_kinds();
    let calls = match kinds.to_vec(rt.alloc()) {
        Ok(calls) => calls,
        Err(_) => kinds.to_vec(rt.alloc())?,
    };
    let history = history_of(calls)?;
    let order = [0, 2, 3, 4, 1, 5];
    let text = match draw(rt.alloc(), &history, Style::Text, 1, Some(order.as_slice())) {
        Ok(text) => text,
        Err(fault) => {
            assert_eq!(rt; fault, DrawFault::Memory);
            draw(rt.alloc(), &history, Style::Text, 1, Some(order.as_slice()))?
        }
    };
    assert_eq!(rt; text.as_str(), KINDS_ORDERED);
    Ok(())
}
