// The elements of a list of rules, one after another.
ghost use Rattle.std.specs.Prelude.{◌≡◌, ◌<◌, ◌≤◌, [], length, Ok, Err, OnOk, OnErr, IfOk, IfSome, None, Some};
ghost use Rattle.serde_json.specs.Data.{Data, Items};
ghost use Rattle.dnr_base.specs.Faults.{Rose};
ghost use Rattle.json_spec.specs.ReadRule.{read_items};
ghost use Rattle.rule_read.specs.Reading.{Taken};
ghost use Rattle.rules_file.specs.Reading.{value_in, HasValue, HasItems, HasNoItems, Next, Answers, StopsBefore, IsCalmFound, IsCalmAnswer};

use crate::value::{next_element, pass_element};
use json::{Invalid, Reader};
use json_fields::Fault;
use regex_host::RegexHost;
use rule_read::{PlacedRefusal, Rule, RuleKind, RuleRefusal, TakenIds, read_next};
use std::alloc::Global;

// Reads the elements up to the bracket that closes the list. One that is refused lets the others be passed over.
pub(crate) fn read_list<H: RegexHost>(
    alloc: Global,
    reader: &mut Reader<'_>,
    depth: usize,
    kind: RuleKind,
    host: &mut H,
) -> Result<Result<Vec<Rule>, PlacedRefusal>, Fault>
    ensures read { IfOk result (λ answer. (items : Items) × HasItems depth reader.old items reader.new
        × Answers kind (Some items) (Rose (H.faults host.old) (H.faults host.new)) answer) }
    ensures calm { IsCalmAnswer (H.faults host.old) (H.faults host.new) result }
    ensures later { H.faults host.old ≤ H.faults host.new }
    ensures shorter { OnOk result (length reader.new < length reader.old) }
    ensures bad { result ≡ Err Fault.BadJson → HasNoItems depth reader.old }
{
    let mut taken = TakenIds::new(alloc);
    let mut rules = Vec::new(alloc);
    match read_good(alloc, reader, depth, kind, host, &mut taken, &mut rules) {
        Ok(None) => Ok(Ok(rules)),
        Ok(Some(refusal)) => match pass_rest(reader, depth) {
            Ok(()) => Ok(Err(refusal)),
            Err(_) => Err(Fault::BadJson),
        },
        Err(fault) => Err(fault),
    }
}

// Reads rules up to the end of the list, or to the first that is refused.
fn read_good<H: RegexHost>(
    alloc: Global,
    reader: &mut Reader<'_>,
    depth: usize,
    kind: RuleKind,
    host: &mut H,
    taken: &mut TakenIds,
    rules: &mut Vec<Rule>,
) -> Result<Option<PlacedRefusal>, Fault>
    requires none { rules.old.items ≡ [] }
    requires taken { Taken taken.old rules.old.items }
    ensures end { result ≡ Ok None → (items : Items) × HasItems depth reader.old items reader.new
        × (read_items kind (Some items) ≡ Ok rules.new.items) }
    ensures refused { IfOk result (λ found. IfSome found
        (StopsBefore depth kind reader.old reader.new (Rose (H.faults host.old) (H.faults host.new)))) }
    ensures calm { IsCalmFound (H.faults host.old) (H.faults host.new) result }
    ensures later { H.faults host.old ≤ H.faults host.new }
    ensures shorter { OnOk result (length reader.new < length reader.old) }
    ensures bad { result ≡ Err Fault.BadJson → HasNoItems depth reader.old }
{
    'items: while !reader.take_end_array() {
        match next_rule(alloc, reader, depth, kind, host, taken, rules) {
            Ok(None) => {}
            Ok(Some(refusal)) => return Ok(Some(refusal)),
            Err(fault) => return Err(fault),
        }
    }
    Ok(None)
}

// Reads the next element as a rule behind the others.
fn next_rule<H: RegexHost>(
    alloc: Global,
    reader: &mut Reader<'_>,
    depth: usize,
    kind: RuleKind,
    host: &mut H,
    taken: &mut TakenIds,
    rules: &mut Vec<Rule>,
) -> Result<Option<PlacedRefusal>, Fault>
    requires { Taken taken.old rules.old.items }
    ensures read { IfOk result (λ found. (d : Data) × HasValue depth reader.old d reader.new
        × Next kind d rules.old.items rules.new.items (Rose (H.faults host.old) (H.faults host.new)) found) }
    ensures taken { result ≡ Ok None → Taken taken.new rules.new.items }
    ensures shorter { OnOk result (length reader.new < length reader.old) }
    ensures calm { IsCalmFound (H.faults host.old) (H.faults host.new) result }
    ensures later { H.faults host.old ≤ H.faults host.new }
    ensures bad { result ≡ Err Fault.BadJson → value_in depth reader.old ≡ None }
{
    let value = match next_element(alloc, reader, depth) {
        Ok(value) => value,
        Err(fault) => return Err(fault),
    };
    match read_next(alloc, &value, kind, host, taken, rules) {
        Ok(()) => Ok(None),
        Err(refusal) if refusal.cause == RuleRefusal::NoMemory => Err(Fault::NoMemory),
        Err(refusal) => Ok(Some(refusal)),
    }
}

// Reads the other elements of a list, and keeps none.
fn pass_rest(reader: &mut Reader<'_>, depth: usize) -> Result<(), Invalid>
    ensures passed { OnOk result ((items : Items) × HasItems depth reader.old items reader.new) }
    ensures shorter { OnOk result (length reader.new < length reader.old) }
    ensures bad { OnErr result (HasNoItems depth reader.old) }
{
    'items: while !reader.take_end_array() {
        match pass_element(reader, depth) {
            Ok(()) => {}
            Err(fault) => return Err(fault),
        }
    }
    Ok(())
}
