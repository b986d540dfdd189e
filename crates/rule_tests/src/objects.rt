//! Fields of objects by RFC 8259, with the last value of a repeated key.
ghost use Rattle.std.specs.List.{All};
ghost use Rattle.json_fields.specs.Fields.{AreApart, IsEmpty};

use json::{Reader, Scratch};
use json_fields::{Fault, Field, Form, Held, next_value, pass_value, read_fields};
use std::alloc::Global;
use std::test::Fail;

// What is found at "a", which wants a text, and at "b", of which all is kept.
fn found(fields: &[Field<'_, '_>]) -> &'static str {
    let [a, b] = fields else {
        return "other fields";
    };
    match (a.text(), b.whole_number(), &b.held) {
        (None, None, None) => "nothing",
        (Some("x"), None, None) => "x",
        (Some("x"), Some(-7), _) => "x and -7",
        (None, None, Some(Held::List(_))) => "a list",
        _ => "more",
    }
}

fn asked<'a>() -> [Field<'static, 'a>; 2]
    ensures apart { AreApart result }
    ensures empty { All IsEmpty result }
{
    [
        Field {
            name: "a",
            keeps: false,
            held: None,
        },
        Field {
            name: "b",
            keeps: true,
            held: None,
        },
    ]
}

fn outcome(alloc: Global, bytes: &[u8], scratch: &mut Scratch) -> &'static str {
    let mut fields = asked();
    match read_fields(alloc, bytes, scratch, &mut fields) {
        Ok(Form::Object) => found(&fields),
        Ok(Form::Other) => "no object",
        Err(Fault::BadJson) => "no JSON",
        Err(Fault::NoMemory) => "no memory",
    }
}

#[test]
fn fields_are_read_or_texts_refused(rt: HostRuntime) -> Result<(), Fail> {
    let rows = r#"nothing | {}
x | {"c":[{"a":"y"},1],"a":"x"}
x | {"a":1,"\u0061":"x"}
x and -7 | {"b":-7,"a":"x","c":null}
a list | {"a":{"a":"x"},"b":[true]}
no object | ["a"]
no JSON | {"a":"x","c":1e999}
no JSON | {"a":"x"} 1
no JSON | {"a":"x",}"#;
    for row in rows.lines() {
        let (expected, text) = row.split_once(" | ").ok_or("no row")?;
        let mut scratch = Scratch::new(rt.alloc());
        assert!(rt;
            outcome(rt.alloc(), text.as_bytes(), &mut scratch) == expected,
            "{text}"
        );
    }
    Ok(())
}

#[test]
fn values_follow_one_another(rt: HostRuntime) -> Result<(), Fail> {
    let mut scratch = Scratch::new(rt.alloc());
    let mut reader = Reader::new("[{\"a\":[]},7]", &mut scratch)?;
    assert!(rt; reader.next().is_some());
    assert!(rt; pass_value(&mut reader, 126).is_ok());
    let seven = next_value(rt.alloc(), &mut reader, 126)?;
    assert!(rt; seven.as_i64() == Some(7));
    assert!(rt; reader.take_end_array());
    Ok(())
}
