// A whole text.
ghost use Rattle.std.specs.Prelude.{◌≡◌, ◌≤◌, List, [], ◌∷◌, Ok, Err, IfOk, IsTrue, None, Some};
ghost use Rattle.std.specs.Bool.{MatchBool};
ghost use Rattle.json.specs.Token.{Token as SpecToken, begin_array};
ghost use Rattle.serde_json.specs.Data.{Data};
ghost use Rattle.serde_json.specs.Read.{read};
ghost use Rattle.serde_json.specs.Find.{as_array};
ghost use Rattle.dnr_base.specs.Faults.{Rose};
ghost use Rattle.json_spec.specs.ReadRule as spec;
ghost use Rattle.rules_file.specs.Reading.{Answers, IsCalmAnswer, IsForm};

use crate::list::read_list;
use crate::value::read_value;
use json::{Reader, Scratch, Token};
use json_fields::{Fault, Field, Form, text_fields};
use regex_host::RegexHost;
use rule_read::{PlacedRefusal, Rule, RuleKind, RuleRefusal, read_rules};
use std::alloc::Global;

// Reads the rules of a text, or the first refusal.
pub(crate) fn read_text<H: RegexHost>(
    alloc: Global,
    text: &str,
    kind: RuleKind,
    host: &mut H,
) -> Result<Result<Vec<Rule>, PlacedRefusal>, Fault>
    ensures read { IfOk result (λ answer. (d : Data) × (read text.now ≡ Some d)
        × Answers kind (as_array d) (Rose (H.faults host.old) (H.faults host.new)) answer) }
    ensures calm { IsCalmAnswer (H.faults host.old) (H.faults host.new) result }
    ensures later { H.faults host.old ≤ H.faults host.new }
    ensures bad { result ≡ Err Fault.BadJson → read text.now ≡ None }
{
    let mut scratch = Scratch::new(alloc);
    let Ok(mut reader) = Reader::new(text, &mut scratch) else {
        return Err(Fault::NoMemory);
    };
    if !opens_list(&mut reader) {
        return read_whole(alloc, text, kind, host);
    }
    match read_list(alloc, &mut reader, 126, kind, host) {
        Ok(answer) if is_over(&mut reader) => Ok(answer),
        Ok(_) => Err(Fault::BadJson),
        Err(fault) => Err(fault),
    }
}

// The same of a text that is no list.
fn read_whole<H: RegexHost>(
    alloc: Global,
    text: &str,
    kind: RuleKind,
    host: &mut H,
) -> Result<Result<Vec<Rule>, PlacedRefusal>, Fault>
    ensures read { IfOk result (λ answer. (d : Data) × (read text.now ≡ Some d)
        × Answers kind (as_array d) (Rose (H.faults host.old) (H.faults host.new)) answer) }
    ensures calm { IsCalmAnswer (H.faults host.old) (H.faults host.new) result }
    ensures later { H.faults host.old ≤ H.faults host.new }
    ensures bad { result ≡ Err Fault.BadJson → read text.now ≡ None }
{
    match form_of(alloc, text) {
        Ok(Form::Object) => Ok(Err(no_list())),
        Ok(Form::Other) => read_small(alloc, text, kind, host),
        Err(fault) => Err(fault),
    }
}

// Whether the text is an object, however many members it has.
fn form_of(alloc: Global, text: &str) -> Result<Form, Fault>
    ensures read { IfOk result (λ form. (d : Data) × (read text.now ≡ Some d) × IsForm form d) }
    ensures bad { result ≡ Err Fault.BadJson → read text.now ≡ None }
{
    let mut scratch = Scratch::new(alloc);
    let mut fields = no_fields();
    text_fields(alloc, text, &mut scratch, &mut fields)
}

fn no_fields<'a>() -> [Field<'static, 'a>; 0] {
    []
}

fn no_list() -> PlacedRefusal
    ensures { result ≡ spec.no_list }
{
    PlacedRefusal {
        place: 0,
        id: None,
        cause: RuleRefusal::NotObject,
        set: None,
    }
}

// The same of a text that is one value, whose tree costs nothing.
fn read_small<H: RegexHost>(
    alloc: Global,
    text: &str,
    kind: RuleKind,
    host: &mut H,
) -> Result<Result<Vec<Rule>, PlacedRefusal>, Fault>
    ensures read { IfOk result (λ answer. (d : Data) × (read text.now ≡ Some d)
        × Answers kind (as_array d) (Rose (H.faults host.old) (H.faults host.new)) answer) }
    ensures calm { IsCalmAnswer (H.faults host.old) (H.faults host.new) result }
    ensures later { H.faults host.old ≤ H.faults host.new }
    ensures bad { result ≡ Err Fault.BadJson → read text.now ≡ None }
{
    match read_value(alloc, text.as_bytes()) {
        Ok(value) => Ok(read_rules(alloc, &value, kind, host)),
        Err(fault) => Err(fault),
    }
}

// Takes the bracket that opens a list, if it is next.
fn opens_list(reader: &mut Reader<'_>) -> bool
    ensures { IsTrue result → reader.old ≡ begin_array ∷ reader.new }
{
    matches!(reader.next(), Some(Token::BeginArray))
}

// Whether no token is left.
fn is_over(reader: &mut Reader<'_>) -> bool
    ensures { MatchBool result (reader.old ≡ [])
        ((t : SpecToken) × (rest : List SpecToken) × (reader.old ≡ t ∷ rest)) }
{
    reader.next().is_none()
}
