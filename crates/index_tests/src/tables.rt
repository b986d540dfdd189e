//! Which places a key has, and how a bucket of many entries is searched.
use key_table::{Asked, Draft, KeyHash, Table};
use std::alloc::{AllocError, Global};
use std::test::Fail;

fn table_of(alloc: Global, rows: &[(&str, u32, u128)]) -> Result<Table, AllocError> {
    let mut draft = Draft::new(alloc);
    for (key, place, needed) in rows {
        draft.add(key.as_bytes(), *place, *needed)?;
    }
    draft.finish(alloc)
}

#[test]
fn a_key_has_its_places_in_order(rt: HostRuntime) -> Result<(), Fail> {
    let rows = [("ads", 7, 1), ("track", 1, 2), ("ads", 2, 6), ("", 4, 0)];
    let table = table_of(rt.alloc(), rows.as_slice())?;
    let mut places = table.places(Asked::exactly(b"ads"));
    assert!(rt; places.next() == Some(7));
    assert!(rt; places.next() == Some(2));
    assert!(rt; places.next() == None);
    let mut places = table.near(Asked::in_lower_case(b"ADS"), 6);
    assert!(rt; places.next() == Some(2));
    assert!(rt; places.next() == None);
    assert!(rt; table.places(Asked::exactly(b"ADS")).next() == None);
    assert!(rt; table.places(Asked::exactly(b"ad")).next() == None);
    assert!(rt; table.asked(Asked::exactly(b""), None).next() == Some(4));
    assert!(rt; table.no_places().next() == None);
    assert!(rt; table.may_have_length(5) && !table.may_have_length(6));
    Ok(())
}

#[test]
fn a_full_bucket_is_searched(rt: HostRuntime) -> Result<(), Fail> {
    let mut draft = Draft::new(rt.alloc());
    for place in 0..20u32 {
        draft.add(b"ads", place, 0)?;
    }
    draft.add(b"track", 40, 0)?;
    let table = draft.finish(rt.alloc())?;
    assert!(rt; table.places(Asked::exactly(b"ads")).next().is_some());
    assert!(rt; table.places(Asked::exactly(b"track")).next() == Some(40));
    Ok(())
}

#[test]
fn a_tag_tells_that_there_are_no_places(rt: HostRuntime) -> Result<(), Fail> {
    let mut hash = KeyHash::new();
    hash.add(b'a');
    hash.add(b'd');
    let tag = hash.tag();
    assert!(rt; tag == Asked::in_lower_case(b"AD").tag());
    assert!(rt; table_of(rt.alloc(), [("ad", 1, 0)].as_slice())?.may_have(tag));
    assert!(rt; !Draft::new(rt.alloc()).finish(rt.alloc())?.may_have(tag));
    Ok(())
}
