ghost use Rattle.std.specs.Prelude.{◌≡◌, ◌++◌, IfOk, OnOk, map};
ghost use Rattle.std.specs.Option.{option_copied};
ghost use Rattle.dnr_spec.specs.Headers as spec;
ghost use Rattle.std.specs.BTreeMap.{IsOrdered};
ghost use Rattle.header_actions.specs.Table.{Changes, HasValues, by_name, changed_values};
ghost use Rattle.header_actions.specs.Table.{headers_of, listed, texts_of};

use crate::HeaderOp;
use dnr_base::{Header, NoMemory, Operation, Text};
use std::alloc::Global;
use std::collections::BTreeMap;

// The values of each header, by its name.
type Table<'a> = BTreeMap<&'a str, Vec<&'a str>>;

// Makes a change of a header's values.
fn change_values<'a>(
    values: &mut Vec<&'a str>,
    operation: Operation,
    value: Option<&'a str>,
) -> Result<(), NoMemory>
    ensures { OnOk result (texts_of values.new ≡ changed_values operation (texts_of values.old) (option_copied value.entry)) }
{
    if operation != Operation::Append {
        values.clear();
    }
    if operation == Operation::Remove {
        return Ok(());
    }
    if let Some(value) = value {
        values.push(value)?;
    }
    Ok(())
}

// Changes the values of a header.
fn change<'a>(
    alloc: Global,
    table: &mut Table<'a>,
    name: &'a str,
    operation: Operation,
    value: Option<&'a str>,
) -> Result<(), NoMemory>
    ensures { OnOk result (Changes table.old table.new name.now operation (option_copied value.entry)) }
{
    let mut values = match table.remove(name) {
        Some(values) => values,
        None => Vec::new(alloc),
    };
    change_values(&mut values, operation, value)?;
    table.insert(name, values)?;
    Ok(())
}

// The values of each header of the list.
fn table_of<'a>(alloc: Global, headers: &'a [Header]) -> Result<Table<'a>, NoMemory>
    ensures { IfOk result (λ table. HasValues table headers.now) }
{
    let mut table = BTreeMap::new(alloc);
    for header in headers {
        let value = Some(header.value.as_str());
        change(
            alloc,
            &mut table,
            header.name.as_str(),
            Operation::Append,
            value,
        )?;
    }
    Ok(table)
}

// Adds the headers of one name to a list.
fn push_headers(
    alloc: Global,
    headers: &mut Vec<Header>,
    name: &str,
    values: &[&str],
) -> Result<(), NoMemory>
    ensures { OnOk result (headers.new.items ≡ headers.old.items ++ headers_of name.now (map (λ v. v.now) values.now)) }
{
    for value in values {
        headers.push(Header {
            name: Text::build(String::from_str(alloc, name)?),
            value: Text::build(String::from_str(alloc, value)?),
        })?;
    }
    Ok(())
}

// The headers that are kept, name by name.
fn headers_in(alloc: Global, table: &Table<'_>) -> Result<Vec<Header>, NoMemory>
    ensures listed { IfOk result (λ headers. headers.items ≡ listed table.now.entries) }
    ensures ordered { IsOrdered by_name table.now }
{
    let mut headers = Vec::new(alloc);
    for (name, values) in table.iter() {
        push_headers(alloc, &mut headers, name, values.as_slice())?;
    }
    Ok(headers)
}

/// The headers after the changes in turn: an `append` adds its value behind those of its header, a `set`
/// puts its value in place of all of them, and a `remove` takes them all away. They stand in ascending byte
/// order of their names, the values of one name in their order.
///
/// It takes about as many steps as there are headers and changes, times the logarithm of their number.
///
/// `NoMemory`: no memory is left for the answer, or for what is kept of each header meanwhile.
pub fn apply(alloc: Global, headers: &[Header], ops: &[HeaderOp]) -> Result<Vec<Header>, NoMemory>
    ensures { IfOk result (λ list. list.items ≡ spec.headers_after headers.now ops.now) }
{
    let mut table = table_of(alloc, headers)?;
    for op in ops {
        change(alloc, &mut table, op.name(), op.operation(), op.value())?;
    }
    headers_in(alloc, &table)
}
