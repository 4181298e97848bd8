//! What no clause says: that memory suffices. The answers are worked out by hand.
use crate::{Learned, Twice, Waiting};
use std::test::Fail;

#[test]
fn two_places_are_filled_once_each(rt: HostRuntime) -> Result<(), Fail> {
    let mut waiting = Waiting::new(rt.alloc(), 2)?;
    assert_eq!(rt; waiting.needs(), 2);
    assert_eq!(rt; waiting.learn(1, 'b'), Ok(Learned::Still(1)));
    assert_eq!(rt; waiting.learn(1, 'c'), Err(Twice { value: 'c' }));
    assert!(rt; !waiting.is_ready());
    assert_eq!(rt; waiting.learn(0, 'a'), Ok(Learned::Ready));
    assert!(rt; waiting.is_ready());
    assert_eq!(rt; waiting.finish().as_slice(), ['a', 'b'].as_slice());
    Ok(())
}

#[test]
fn a_task_with_no_need_is_ready(rt: HostRuntime) -> Result<(), Fail> {
    let waiting: Waiting<u8> = Waiting::new(rt.alloc(), 0)?;
    assert!(rt; waiting.is_ready());
    assert!(rt; waiting.finish().is_empty());
    Ok(())
}

// Values come in from the last slot to the first, and come out by slot.
#[test]
fn thirty_two_places_have_room(rt: HostRuntime) -> Result<(), Fail> {
    let mut waiting = Waiting::new(rt.alloc(), 32)?;
    assert_eq!(rt; waiting.needs(), 32);
    for left in (0..32u32).rev() {
        assert!(rt; left < waiting.needs());
        let answer = if left == 0 {
            Learned::Ready
        } else {
            Learned::Still(left)
        };
        assert_eq!(rt; waiting.learn(left, left), Ok(answer), "slot {left}");
    }
    assert!(rt; waiting.is_ready());
    assert!(rt; waiting.finish().into_iter().eq(0..32u32));
    Ok(())
}

#[test]
fn a_second_value_has_a_text(rt: HostRuntime) -> Result<(), Fail> {
    let twice = Twice { value: 7u8 };
    let text = twice.to_string(rt.alloc())?;
    assert_eq!(rt; text.as_str(), "the slot was filled before");
    Ok(())
}
