//! What passes answer before, between and after swaps.
ghost use Rattle.std.specs.Prelude.{◌≡◌, ◌≤◌, length};
ghost use Rattle.dnr_base.specs.Request.{max_frames};

use crate::answers::{Line, answered, explained, publish, publish_both};
use crate::fixtures::{INSTALLS, SWITCHES_OFF, UNINSTALLS, opening, request, update};
use dnr_base::Request;
use generation::{Generation, Outcome, Update};
use published::{Opening, Pair, publish_pair};
use regex_host::PackHost;
use std::alloc::Global;
use std::marker::Brand;
use std::sync::Wait;
use std::test::Fail;

// What two passes answer once an update is published, of which the first has learnt.
fn one_of_two_learns<P: Pair, R: Wait>(
    rt: &R,
    alloc: Global,
    opened: Opening,
    first: Generation,
    update: &Update,
    request: &Request,
) -> Option<[Option<Line>; 2]>
    requires book { opened ≡ P.book }
    requires opening { first ≡ P.opening }
    requires frames { length request.now.frames ≤ max_frames }
{
    let mut host = PackHost::new(alloc).ok()?;
    let (mut writer, mut passes) = publish_pair::<P>(alloc, opened, first, 2).ok()?;
    publish(rt, &mut writer, update);
    let mut lines = [None, None];
    if let Some(pass) = passes.get_mut(0) {
        if pass.learn(writer.note()) {
            lines[0] = answered(alloc, pass, request, &mut host);
        }
    }
    if let Some(pass) = passes.get_mut(1) {
        lines[1] = answered(alloc, pass, request, &mut host);
    }
    writer.close(rt);
    Some(lines)
}

#[test]
fn a_pass_answers_by_what_it_learnt(rt: HostRuntime) -> Result<(), Fail> {
    let alloc = rt.alloc();
    let update = update(alloc, INSTALLS).ok_or("no update")?;
    let request = request(alloc).ok_or("no request")?;
    let first = opening(alloc, None).ok_or("refused")?;
    let [learnt, other] = one_of_two_learns::<Brand, _>(
        &rt,
        alloc,
        Opening::new(),
        first,
        &update,
        &request,
    ).ok_or("memory")?;
    assert_eq!(rt; learnt, Some((1, Outcome::Block)));
    assert!(rt; other == Some((0, Outcome::None)) || other == Some((1, Outcome::Block)));
    Ok(())
}

// What a pass answers before, between and after the swaps of an update and of a batch, and whether it learns at last.
fn lines_between_swaps<P: Pair, R: Wait>(
    rt: &R,
    alloc: Global,
    opened: Opening,
    first: Generation,
    update: &Update,
    both: &[Update; 2],
    request: &Request,
) -> Option<([Option<Line>; 4], bool)>
    requires book { opened ≡ P.book }
    requires opening { first ≡ P.opening }
    requires frames { length request.now.frames ≤ max_frames }
{
    let mut host = PackHost::new(alloc).ok()?;
    let (mut writer, mut passes) = publish_pair::<P>(alloc, opened, first, 1).ok()?;
    let mut lines = [None, None, None, None];
    let mut learns = false;
    if let Some(pass) = passes.get_mut(0) {
        lines[0] = answered(alloc, pass, request, &mut host);
        publish(rt, &mut writer, update);
        lines[1] = answered(alloc, pass, request, &mut host);
        publish_both(rt, &mut writer, both);
        lines[2] = explained(alloc, pass, request, &mut host);
        // It is refused now, and stages nothing.
        publish(rt, &mut writer, &both[1]);
        lines[3] = answered(alloc, pass, request, &mut host);
        pass.compare(&writer.note());
        learns = !writer.staged()
            && writer.generation().number() == writer.number()
            && pass.learn(writer.note());
    }
    writer.close(rt);
    Some((lines, learns))
}

#[test]
fn a_pass_goes_on_from_swap_to_swap(rt: HostRuntime) -> Result<(), Fail> {
    let alloc = rt.alloc();
    let installs = update(alloc, INSTALLS).ok_or("no update")?;
    let both = [
        update(alloc, SWITCHES_OFF).ok_or("no update")?,
        update(alloc, UNINSTALLS).ok_or("no update")?,
    ];
    let request = request(alloc).ok_or("no request")?;
    let first = opening(alloc, None).ok_or("refused")?;
    let (lines, learns) = lines_between_swaps::<Brand, _>(
        &rt,
        alloc,
        Opening::new(),
        first,
        &installs,
        &both,
        &request,
    )
    .ok_or("memory")?;
    let wanted = [
        Some((0, Outcome::None)),
        Some((1, Outcome::Block)),
        Some((2, Outcome::None)),
        Some((2, Outcome::None)),
    ];
    assert_eq!(rt; lines, wanted);
    assert!(rt; learns);
    Ok(())
}
