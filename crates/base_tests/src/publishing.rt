use std::test::Fail;
use swap_core::{Event, MAX_PUBLISHED, Machine};

#[test]
fn readers_see_what_is_published_when_they_look(rt: HostRuntime) -> Result<(), Fail> {
    let mut machine = Machine::build(0, Vec::from_array(rt.alloc(), [0, 0])?);
    machine.run(&[
        Event::Publish,
        Event::Enter(0),
        Event::Publish,
        Event::Learn(1),
        Event::Publish,
    ]);
    assert_eq!(rt; machine.published(), 3);
    assert_eq!(rt; machine.seen(), [1, 2].as_slice());
    machine.step(Event::Enter(1));
    assert_eq!(rt; machine.seen(), [1, 3].as_slice());
    Ok(())
}

#[test]
fn count_of_what_is_published_stands_still_at_its_end(rt: HostRuntime) -> Result<(), Fail> {
    let mut machine = Machine::build(MAX_PUBLISHED - 1, Vec::from_array(rt.alloc(), [7])?);
    machine.run(&[Event::Publish, Event::Publish, Event::Learn(0)]);
    assert_eq!(rt; machine.published(), 1_000_000);
    assert_eq!(rt; machine.seen(), [1_000_000].as_slice());
    Ok(())
}
