use history::{Itself, Opened, agree};

fn is_shared<T: Send + Sync>(_: &T) {}

#[test]
fn logs_grow_by_the_head_alone(rt: HostRuntime) {
    let (head, empty) = Opened::<u64>::new().parts();
    let one = empty
        .with::<u64, Itself>(&head, &7)
        .unwrap_or(empty.again());
    let two = one.with::<u64, Itself>(&head, &8).unwrap_or(empty.again());
    assert_eq!(rt; (empty.len(), one.len(), two.len()), (0, 1, 2));
    // The history has gone on without this log.
    assert!(rt; one.with::<u64, Itself>(&head, &9).is_none());
    agree(&one, &two);
    let rows = [
        (two.covers(&one), true),
        (one.covers(&two), false),
        (two.covers(&two.again()), true),
    ];
    for (covers, wanted) in rows {
        assert_eq!(rt; covers, wanted);
    }
    is_shared(&two);
    is_shared(&head);
}
