//! Laws of views: what every view keeps that a text gives. Each function does nothing; its contract is the law, stated
//! in `specs/Laws.antt`.
#![tactic(auto)]

ghost use Rattle.view_laws.specs.Laws.{TextsGiveViews};

/// A view that a text gives is a view: its serialization is ASCII, and its host stands in it as `View` says.
pub fn texts_give_views()
    ensures { TextsGiveViews }
{}
