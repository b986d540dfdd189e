ghost use Rattle.std.specs.Prelude.{◌≡◌, option_map};

use crate::{Header, Items, Kind, Method, Text, View};
use std::marker::Model;

/// What a rule's condition is tested on: a request's own URL, or that of a frame in which it is made. It
/// lends what the request keeps. A clause sees it as the part itself, without the loans.
#[derive(Debug, Drop)]
pub struct Part<'a> {
    /// The URL that is asked for.
    pub view: &'a View,
    /// The host of the page that asks, if any does.
    pub initiator: Option<&'a Text>,
    /// What it is asked for.
    pub kind: Kind,
    /// The method by which it is asked for.
    pub method: Method,
    /// The tab in which it is asked for, and -1 for none.
    pub tab: i32,
    /// The headers of its response. `None`: it carries no such list.
    pub response_headers: Option<&'a Items<Header>>,
}

impl<'a> Model for Part<'a> {
    ghost use Rattle.std.specs.Prelude.{option_map};
    ghost use Rattle.dnr_base.specs.Request.{Part};

    ghost Value = { Part };

    ghost view = { λ p. record {
      view = p.view.now;
      initiator = option_map (λ text. text.now) p.initiator;
      kind = p.kind;
      method = p.method;
      tab = p.tab;
      response_headers = option_map (λ headers. headers.now) p.response_headers;
    } };
}
