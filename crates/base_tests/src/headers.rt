//! Header operations, and which rule goes first.
use dnr_base::{Candidate, Direction, Header, Offered, Operation, Rank, Text, Verb, Winner};
use dnr_spec::HeaderRefusal;
use header_actions::{HeaderOp, apply, plan};
use precedence::{across, beats, inside};
use std::alloc::Global;
use std::test::Fail;

fn op(alloc: Global, operation: Operation, value: &str) -> Result<HeaderOp, HeaderRefusal> {
    HeaderOp::read(alloc, Direction::Response, "X-A", operation, Some(value))
}

#[test]
fn an_operation_is_kept_as_read(rt: HostRuntime) -> Result<(), Fail> {
    let op = op(rt.alloc(), Operation::Set, "A b")?.copy(rt.alloc())?;
    assert!(rt; op.name() == "x-a" && op.operation() == Operation::Set);
    assert!(rt; op.value() == Some("A b"));
    let read = HeaderOp::read(
        rt.alloc(),
        Direction::Request,
        "x-y",
        Operation::Append,
        Some("a"),
    );
    assert!(rt; read.err() == Some(HeaderRefusal::AppendNotAllowed));
    Ok(())
}

#[test]
fn values_stand_behind_the_others(rt: HostRuntime) -> Result<(), Fail> {
    let name = Text::build(String::from_str(rt.alloc(), "x-a")?);
    let value = Text::build(String::from_str(rt.alloc(), "0")?);
    let headers = [Header { name, value }];
    let ops = [op(rt.alloc(), Operation::Append, "a")?];
    let after = apply(rt.alloc(), headers.as_slice(), ops.as_slice())?;
    assert!(rt;
        after
            .iter()
            .map(|header| header.value.as_str())
            .eq(["0", "a"].iter().copied())
    );
    Ok(())
}

fn offer(alloc: Global, age: u32, operation: Operation) -> Result<Offered, Fail> {
    let name = Text::build(String::from_str(alloc, "x-a")?);
    let direction = Direction::Response;
    Ok(Offered {
        age,
        direction,
        name,
        operation,
    })
}

#[test]
fn an_append_follows_a_set_of_its_own_extension(rt: HostRuntime) -> Result<(), Fail> {
    let mut offers = Vec::new(rt.alloc());
    offers.push(offer(rt.alloc(), 1, Operation::Set)?)?;
    offers.push(offer(rt.alloc(), 0, Operation::Append)?)?;
    offers.push(offer(rt.alloc(), 1, Operation::Append)?)?;
    assert!(rt; plan(rt.alloc(), &offers)?.as_slice() == [0, 2].as_slice());
    Ok(())
}

fn candidate(priority: u32, action: Verb, rank: Rank, id: u32) -> Candidate {
    Candidate {
        priority,
        action,
        rank,
        id,
    }
}

#[test]
fn each_goes_before_the_next(rt: HostRuntime) {
    let order = [
        candidate(2, Verb::Redirect, Rank::Static(1), 9),
        candidate(1, Verb::Allow, Rank::Static(1), 9),
        candidate(1, Verb::AllowAllRequests, Rank::Static(1), 9),
        candidate(1, Verb::Block, Rank::Static(1), 9),
        candidate(1, Verb::UpgradeScheme, Rank::Static(1), 9),
        candidate(1, Verb::Redirect, Rank::Session, 9),
        candidate(1, Verb::Redirect, Rank::Dynamic, 9),
        candidate(1, Verb::Redirect, Rank::Static(0), 9),
        candidate(1, Verb::Redirect, Rank::Static(1), 8),
        candidate(1, Verb::Redirect, Rank::Static(1), 9),
    ];
    for pair in order.windows(2) {
        assert!(rt;
            beats(&pair[0], &pair[1]) && !beats(&pair[1], &pair[0]),
            "{pair:?}"
        );
    }
    assert!(rt; inside(&order) == Some(0));
    let allow = Winner {
        action: Verb::Allow,
        age: 1,
    };
    let block = Winner {
        action: Verb::Block,
        age: 0,
    };
    assert!(rt; across(&[allow, block]) == Some(1));
}
