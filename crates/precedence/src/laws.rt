ghost use Rattle.dnr_spec.specs.Order as spec;
ghost use Rattle.precedence.specs.Laws.{IsOrder, OneBeats, OnePrevails, IsKept};

/// Candidates are in an order: no two beat each other, and one that beats another beats whatever does not
/// beat that other. Of two candidates one beats the other, unless they have one rank and one id.
pub fn candidates_are_ordered()
    ensures ordered { IsOrder spec.beats }
    ensures one_beats { OneBeats }
{}

/// Winners across extensions are in an order, as candidates are: of two winners one prevails over the other,
/// unless they have one class and one age.
pub fn winners_are_ordered()
    ensures ordered { IsOrder spec.prevails }
    ensures one_prevails { OnePrevails }
{}

/// The best can be kept while a list is walked: one more at its end takes the place of the one that is
/// unbeaten so far where it beats that one, and nowhere else.
pub fn best_is_kept()
    ensures candidates { IsKept spec.beats }
    ensures winners { IsKept spec.prevails }
{}
