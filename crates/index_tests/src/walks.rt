//! Which places share a word with a text, and which have a domain over a host.
use key_table::{Draft, Table};
use key_walk::{DomainWalk, ListedWords, TaggedWalk, WordWalk, Words};
use std::alloc::{AllocError, Global};
use std::test::Fail;

fn table_of(alloc: Global, rows: &[(&str, u32)]) -> Result<Table, AllocError> {
    let mut draft = Draft::new(alloc);
    for (key, place) in rows {
        draft.add(key.as_bytes(), *place, u128::from(*place))?;
    }
    draft.finish(alloc)
}

#[test]
fn a_word_that_stands_twice_is_asked_once(rt: HostRuntime) -> Result<(), Fail> {
    let table = table_of(rt.alloc(), [("ads", 1), ("x1", 2), ("track", 4)].as_slice())?;
    let text = b"http://ads.com/Ads/x1?ADS=xx1";
    let mut walk = WordWalk::new(&table, text);
    assert!(rt; walk.next() == Some(1));
    assert!(rt; walk.next() == Some(2));
    assert!(rt; walk.next() == None);
    let mut walk = WordWalk::near(&table, text, 6);
    assert!(rt; walk.next() == Some(2));
    assert!(rt; walk.next() == None);
    let mut words = Words::new(b"a//b1");
    assert!(rt; words.next() == Some(b"a".as_slice()));
    assert!(rt; words.next() == Some(b"b1".as_slice()));
    assert!(rt; words.next() == None);
    Ok(())
}

#[test]
fn a_host_lies_in_its_rests(rt: HostRuntime) -> Result<(), Fail> {
    let rows = [
        ("com", 1),
        ("b.com", 2),
        ("a.b.com", 4),
        ("4", 8),
        ("1.2.3.4", 16),
    ];
    let table = table_of(rt.alloc(), rows.as_slice())?;
    let mut walk = DomainWalk::new(&table, "a.b.com");
    assert!(rt; walk.next() == Some(4));
    assert!(rt; walk.next() == Some(2));
    assert!(rt; walk.next() == Some(1));
    assert!(rt; walk.next() == None);
    let mut walk = DomainWalk::new(&table, "1.2.3.4");
    assert!(rt; walk.next() == Some(16));
    assert!(rt; walk.next() == None);
    assert!(rt; DomainWalk::asked(&table, "x.b.com", Some(1)).next() == Some(1));
    assert!(rt; DomainWalk::new(&table, "B.COM").next() == None);
    Ok(())
}

// The places that share one of the words.
fn places_of(
    alloc: Global,
    table: &Table,
    words: &ListedWords<'_>,
    shown: Option<u128>,
) -> Result<Vec<u32>, AllocError> {
    let mut places = Vec::new(alloc);
    for place in TaggedWalk::asked(table, words, shown) {
        places.push(place)?;
    }
    Ok(places)
}

#[test]
fn a_listed_word_is_asked_once(rt: HostRuntime) -> Result<(), Fail> {
    let table = table_of(rt.alloc(), [("ads", 1), ("x1", 2), ("track", 4)].as_slice())?;
    let words = ListedWords::of_text(rt.alloc(), b"http://ads.com/Ads/x1?ADS=xx1")?;
    let all = places_of(rt.alloc(), &table, &words, Some(7))?;
    assert!(rt; all.as_slice() == [1, 2].as_slice());
    let near = places_of(rt.alloc(), &table, &words, Some(6))?;
    assert!(rt; near.as_slice() == [2].as_slice());
    Ok(())
}

#[test]
fn of_many_listed_words_each_is_asked_once(rt: HostRuntime) -> Result<(), Fail> {
    let table = table_of(rt.alloc(), [("ads", 1), ("x1", 2), ("track", 4)].as_slice())?;
    let mut text = Vec::new(rt.alloc());
    text.extend_from_slice(b"http://x1.com/")?;
    for _ in 0..200 {
        text.extend_from_slice(b"Ads/aDS/")?;
    }
    let words = ListedWords::of_text(rt.alloc(), &text)?;
    assert!(rt; words.words().len() == 403);
    let all = places_of(rt.alloc(), &table, &words, None)?;
    assert!(rt; all.as_slice() == [2, 1].as_slice());
    Ok(())
}
