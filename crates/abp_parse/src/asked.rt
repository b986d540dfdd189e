//! What the options of a filter ask for.
ghost use Rattle.std.specs.Prelude.{◌≡◌, None, fold};
ghost use Rattle.dnr_base.specs.KindSet.{kinds_of};
ghost use Rattle.list_spec.specs.Options as options;
ghost use Rattle.abp_parse.specs.Seen.{asked_seen, subject_seen};

use dnr_base::{Kind, KindSet};
use list_spec::{DomainEntry, OptionName};

/// What an option speaks of.
#[derive(Clone, Copy)]
pub enum Subject {
    /// These types of requests.
    Types(&'static [Kind]),
    Party,
    Domains,
    Case,
    Document,
}

/// What an option speaks of.
pub fn subject_of(option: OptionName) -> Subject
    ensures { subject_seen result ≡ options.subject_of option }
{
    match option {
        OptionName::Script => Subject::Types(&[Kind::Script]),
        OptionName::Image => Subject::Types(&[Kind::Image]),
        OptionName::Stylesheet => Subject::Types(&[Kind::Stylesheet]),
        OptionName::Object => Subject::Types(&[Kind::Object]),
        OptionName::XmlHttpRequest => Subject::Types(&[Kind::XmlHttpRequest]),
        OptionName::Ping => Subject::Types(&[Kind::Ping]),
        OptionName::WebSocket => Subject::Types(&[Kind::WebSocket]),
        OptionName::Font => Subject::Types(&[Kind::Font]),
        OptionName::Media => Subject::Types(&[Kind::Media]),
        OptionName::Subdocument => Subject::Types(&[Kind::SubFrame]),
        OptionName::Other => Subject::Types(&[
            Kind::Other,
            Kind::CspReport,
            Kind::WebTransport,
            Kind::WebBundle,
        ]),
        OptionName::ThirdParty => Subject::Party,
        OptionName::Domain => Subject::Domains,
        OptionName::MatchCase => Subject::Case,
        OptionName::Document => Subject::Document,
    }
}

/// What the options of a filter ask for, as far as they were read.
#[derive(Drop)]
pub struct Asked {
    pub match_case: bool,
    pub third_party: Option<bool>,
    /// None: no `domain` stood yet.
    pub domains: Option<Vec<DomainEntry>>,
    /// None: no option spoke of types yet.
    pub kinds: Option<KindSet>,
    pub document: bool,
}

// These types put in.
fn with_kinds(kinds: KindSet, these: &[Kind]) -> KindSet
    ensures { kinds_of result ≡ fold options.with_type (kinds_of kinds) these.now }
{
    let mut kinds = kinds;
    for kind in these {
        kinds.insert(*kind);
    }
    kinds
}

// These types taken out.
fn without_kinds(kinds: KindSet, these: &[Kind]) -> KindSet
    ensures { kinds_of result ≡ fold options.without_type (kinds_of kinds) these.now }
{
    let mut kinds = kinds;
    for kind in these {
        kinds.remove(*kind);
    }
    kinds
}

impl Asked {
    /// Nothing.
    pub fn nothing() -> Asked
        ensures seen { asked_seen result ≡ options.nothing_asked }
        ensures domains { result.domains ≡ None }
    {
        Asked {
            match_case: false,
            third_party: None,
            domains: None,
            kinds: None,
            document: false,
        }
    }

    /// One option more that speaks of these types.
    pub fn add_kinds(&mut self, inverse: bool, these: &[Kind])
        ensures seen { asked_seen self.new ≡ options.with_types (asked_seen self.old) inverse these.now }
        ensures domains { self.new.domains ≡ self.old.domains }
    {
        let kinds = if inverse {
            without_kinds(self.kinds.unwrap_or(KindSet::all_but_main_frame()), these)
        } else {
            with_kinds(self.kinds.unwrap_or(KindSet::empty()), these)
        };
        self.kinds = Some(kinds);
    }
}
