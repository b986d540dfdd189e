//! Copies, sets, names and counts, and that threads may share what the types keep.
use dnr_base::{
    Copied, Direction, Frame, Header, Items, Kind, KindSet, Method, MethodSet, NoMemory, Offered,
    Operation, Part, Plan, Redirect, Request, RuleName, Scheme, Text, View, count_fault,
};
use dnr_spec::Status;
use domain_set::DomainSet;
use header_actions::HeaderOp;
use regex_host::Substitution;
use std::alloc::Global;
use std::test::Fail;
use suffix_list::SuffixList;
use url_filter::Pattern;
use url_view::parse;

// Compiles where threads may share values of the type.
fn is_shared<T: Send + Sync>() {}

#[test]
fn threads_may_share_them() {
    is_shared::<Items<Text>>();
    is_shared::<KindSet>();
    is_shared::<View>();
    is_shared::<Request>();
    is_shared::<Part<'static>>();
    is_shared::<RuleName>();
    is_shared::<Pattern>();
    is_shared::<DomainSet>();
    is_shared::<SuffixList>();
    is_shared::<Substitution>();
    is_shared::<HeaderOp>();
}

fn copy_of<T: Copied>(alloc: Global, value: &T) -> Result<T, NoMemory> {
    value.copied(alloc)
}

fn text(alloc: Global, words: &str) -> Result<Text, NoMemory> {
    Ok(Text::build(String::from_str(alloc, words)?))
}

fn header(alloc: Global) -> Result<Header, NoMemory> {
    let name = text(alloc, "te")?;
    let value = text(alloc, "a")?;
    Ok(Header { name, value })
}

// From a frame without a URL.
fn request(alloc: Global) -> Result<Request, Fail> {
    let view = parse(alloc, "http://u@x.org:81/a?b#c")?;
    let frame = Frame {
        view: None,
        initiator: None,
        method: Method::Post,
    };
    Ok(Request {
        line: 3,
        view,
        initiator: None,
        kind: Kind::Script,
        method: Method::Head,
        tab: 7,
        frames: Items::build(vec![in alloc; frame]?),
        request_headers: Some(Items::build(vec![in alloc; header(alloc)?]?)),
        response_headers: None,
    })
}

#[test]
fn a_request_and_its_copy_have_the_same_parts(rt: HostRuntime) -> Result<(), Fail> {
    let request = copy_of(rt.alloc(), &request(rt.alloc())?)?;
    let own = request.own_part();
    assert!(rt; own.view.full() == "http://u@x.org:81/a?b#c");
    assert!(rt; own.view.text() == "http://u@x.org:81/a?b");
    assert!(rt; own.view.host() == "x.org" && own.view.scheme() == Scheme::Http);
    assert!(rt; own.view.host_span().start == 9);
    assert!(rt; request.frame_part(0).is_none());
    Ok(())
}

#[test]
fn names_are_copied(rt: HostRuntime) -> Result<(), Fail> {
    let name = RuleName {
        ext: text(rt.alloc(), "local")?,
        set: text(rt.alloc(), "rules")?,
        id: 4,
    };
    let copy = copy_of(rt.alloc(), &name)?;
    assert!(rt; copy.ext == name.ext && copy.set == name.set && copy.id == 4);
    Ok(())
}

#[test]
fn offers_and_redirects_are_copied(rt: HostRuntime) -> Result<(), Fail> {
    let offer = Offered {
        age: 3,
        direction: Direction::Response,
        name: text(rt.alloc(), "te")?,
        operation: Operation::Set,
    };
    assert!(rt; copy_of(rt.alloc(), &offer)?.name == offer.name);
    let redirect = Redirect::ExtensionPath(text(rt.alloc(), "/p")?);
    let copy = copy_of(rt.alloc(), &redirect)?;
    assert!(rt; matches!(&copy, Redirect::ExtensionPath(path) if path.as_str() == "/p"));
    Ok(())
}

#[test]
fn a_set_has_what_was_put_in(rt: HostRuntime) {
    let mut kinds = KindSet::empty();
    kinds.insert(Kind::Font);
    assert!(rt; kinds.contains(Kind::Font) && !kinds.contains(Kind::Image));
    kinds.remove(Kind::Font);
    assert!(rt; kinds == KindSet::empty() && KindSet::all().contains(Kind::MainFrame));
    assert!(rt; !KindSet::all_but_main_frame().contains(Kind::MainFrame));
    let mut methods = MethodSet::empty();
    methods.insert(Method::Put);
    assert!(rt; methods.contains(Method::Put));
    methods.remove(Method::Put);
    assert!(rt; methods == MethodSet::empty() && MethodSet::all().contains(Method::Get));
}

#[test]
fn each_type_and_method_has_its_name(rt: HostRuntime) {
    for kind in Kind::ALL {
        assert!(rt; Kind::named(kind.name()) == Some(kind));
    }
    for method in Method::ALL {
        assert!(rt; Method::named(method.name()) == Some(method));
    }
    assert!(rt; Kind::Other.place() == 14 && Method::Other.place() == 8);
    assert!(rt; Scheme::named(Scheme::Wss.name()) == Some(Scheme::Wss));
    assert!(rt; Status::NoMemory.value() == 5);
}

#[test]
fn listed_calls_fail(rt: HostRuntime) -> Result<(), Fail> {
    let mut plan = Plan::new(vec![in rt.alloc(); 2, 4]?);
    for call in 1..6 {
        assert!(rt; plan.fails() == (call % 2 == 0), "call {call}");
    }
    plan.count_fault();
    assert!(rt; plan.faults() == 3);
    let mut faults = u64::MAX;
    count_fault(&mut faults);
    assert!(rt; faults == u64::MAX);
    Ok(())
}
