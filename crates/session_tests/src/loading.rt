//! What the words of a command ask for, and what is read then.
use crate::shelves::{shelf, words};
use dnr_base::{Copied, Text};
use dnr_rules::Rule;
use dnr_words::{Installed, Task, read_words};
use manifest_read::{ManifestPath, ManifestRefusal, read_extension};
use regex_host::PackHost;
use rule_spec::RuleKind;
use ruleset_store::{Extension, Refusal, RuleSet, Store, Update};
use session_load::{Loaded, load_list, load_local, load_rules, load_serving};
use std::alloc::Global;
use std::sync::Arc;
use std::test::Fail;

#[test]
fn words_are_a_command(rt: HostRuntime) -> Result<(), Fail> {
    let words = words(rt.alloc(), "serve --list l=e=f --psl p --ext shop s")?;
    let Some(Task::Serve(serving)) = read_words(&words) else {
        return Err(Fail::new("no session"));
    };
    assert!(rt; serving.script() == "s" && serving.suffixes() == Some("p"));
    let installed = serving.installed(rt.alloc())?;
    assert!(rt; matches!(installed.first(), Some(Installed::List("l", "e=f"))));
    assert!(rt; matches!(installed.last(), Some(Installed::Folder("shop"))));
    assert!(rt; read_words(&words[..1]).is_none());
    Ok(())
}

// The second call of the shelf would be a fault.
#[test]
fn a_path_that_leaves_the_folder_opens_no_file(rt: HostRuntime) -> Result<(), Fail> {
    let mut host = PackHost::new(rt.alloc())?;
    let read = read_extension(rt.alloc(), &mut shelf(rt.alloc(), 2)?, "out", &mut host);
    assert!(rt; matches!(&read, Err(ManifestRefusal::BadManifest(ManifestPath::Path))));
    Ok(())
}

fn has_id(rules: &[Rule], id: u32) -> bool {
    rules.len() == 1 && rules.iter().all(|rule| rule.id() == id)
}

// The ruleset `s`, which is not enabled and has the rule 5 alone.
fn is_expected(set: &RuleSet) -> bool {
    let has_rule = has_id(set.rules().as_slice(), 5);
    set.id() == "s" && !set.is_enabled() && has_rule
}

#[test]
fn an_extension_has_its_rulesets(rt: HostRuntime) -> Result<(), Fail> {
    let mut host = PackHost::new(rt.alloc())?;
    let read = read_extension(rt.alloc(), &mut shelf(rt.alloc(), 0)?, "shop", &mut host);
    let shop = read.ok().ok_or("refused")?;
    assert!(rt; shop.name() == "shop" && shop.access().is_none());
    let set = shop.sets().first().ok_or("no ruleset")?;
    assert!(rt; is_expected(set.set()));
    let read = read_extension(rt.alloc(), &mut shelf(rt.alloc(), 2)?, "shop", &mut host);
    assert!(rt; matches!(&read, Err(ManifestRefusal::ReadFault)));
    Ok(())
}

#[test]
fn rules_are_loaded(rt: HostRuntime) -> Result<(), Fail> {
    let mut shelf = shelf(rt.alloc(), 0)?;
    let mut host = PackHost::new(rt.alloc())?;
    let loaded = load_rules(
        rt.alloc(),
        "r.json",
        RuleKind::Static,
        &mut shelf,
        &mut host,
    );
    assert!(rt; has_id(&loaded.ok().ok_or("refused")?, 1));
    let loaded = load_local(rt.alloc(), "r.json", &mut shelf, &mut host);
    let Loaded { extensions, .. } = loaded.ok().ok_or("refused")?;
    assert!(rt; extensions.iter().all(|it| it.name() == "local"));
    Ok(())
}

#[test]
fn a_list_is_compiled(rt: HostRuntime) -> Result<(), Fail> {
    let mut host = PackHost::new(rt.alloc())?;
    let loaded = load_list(rt.alloc(), "l.txt", &mut shelf(rt.alloc(), 0)?, &mut host);
    let list = loaded.ok().ok_or("refused")?;
    assert!(rt; has_id(&list.rules, 1) && list.report.lines.as_slice().len() == 1);
    let mut origins = list.report.origins.iter();
    assert!(rt; origins.all(|lines| lines.as_slice() == [2].as_slice()));
    Ok(())
}

#[test]
fn a_session_is_loaded_in_the_order_of_its_words(rt: HostRuntime) -> Result<(), Fail> {
    let words = words(
        rt.alloc(),
        "serve --list l=l.txt --psl psl.dat --ext shop s",
    )?;
    let Some(Task::Serve(serving)) = read_words(&words) else {
        return Err(Fail::new("no session"));
    };
    let mut host = PackHost::new(rt.alloc())?;
    let loaded = load_serving(rt.alloc(), &serving, &mut shelf(rt.alloc(), 0)?, &mut host);
    let Loaded {
        suffixes,
        extensions,
    } = loaded.ok().ok_or("refused")?;
    assert!(rt; suffixes.registrable("a.b.co.uk") == Some("b.co.uk"));
    assert!(rt;
        extensions
            .iter()
            .map(|it| it.name())
            .eq(["l", "shop"].iter().copied())
    );
    Ok(())
}

// An extension with one ruleset, which has no rules.
fn bare(alloc: Global) -> Result<Extension, Fail> {
    let id = Text::build(String::from_str(alloc, "s")?);
    let set = RuleSet::build(alloc, id, true, Vec::new(alloc), Vec::new(alloc))?;
    let name = Text::build(String::from_str(alloc, "bare")?);
    Ok(Extension::build(alloc, name, vec![in alloc; set]?, None)?)
}

#[test]
fn an_extension_is_installed_once(rt: HostRuntime) -> Result<(), Fail> {
    let alloc = rt.alloc();
    let extension = Arc::new(alloc, bare(alloc)?.copied(alloc)?)?;
    let update = Update::Install { extension };
    let store = Store::empty(alloc);
    assert!(rt; store.judge(alloc, &update).is_ok());
    let next = store.apply(alloc, &update).ok().ok_or("refused")?;
    assert!(rt; next.count() == 1 && next.extensions().len() == 1);
    let again = next.opened().install(alloc, bare(alloc)?);
    assert!(rt; matches!(again.err(), Some(Refusal::ExtensionThere(_))));
    Ok(())
}
