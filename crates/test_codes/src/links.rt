//! A link with one item more than its ring holds.

ghost use Rattle.fifo_links.specs.Link.{SameTail};

use fifo_links::{LinkTail, link, settle};
use std::test::Fail;

// Sends the numbers below `count`. Returns whether all of them were sent.
fn sends_up_to(tail: &mut LinkTail<u64>, count: u64) -> bool
    ensures { SameTail tail.old tail.new }
{
    for item in 0..count {
        if tail.push(item).is_err() {
            return false;
        }
    }
    true
}

// Whether these are the numbers from 0 on.
fn are_counted(items: &[u64]) -> bool {
    for (place, item) in items.iter().enumerate() {
        if *item != place as u64 {
            return false;
        }
    }
    true
}

#[test]
fn what_the_ring_does_not_hold_waits_for_a_slot(rt: HostRuntime) -> Result<(), Fail> {
    let (mut tail, mut head) = link::<u64>(rt.alloc())?;
    assert!(rt; sends_up_to(&mut tail, 65));
    let mut first = Vec::with_capacity(rt.alloc(), 64)?;
    assert!(rt; head.take_all(&mut first) == 64);
    assert!(rt; are_counted(first.as_slice()));
    assert!(rt; settle(&mut tail, &mut head) == 1);
    let mut second = Vec::with_capacity(rt.alloc(), 64)?;
    assert!(rt; head.take_all(&mut second) == 1);
    assert!(rt; second.as_slice() == [64].as_slice());
    Ok(())
}
