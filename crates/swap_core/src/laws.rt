//! What is known of every schedule. The functions do nothing; each has a law as its contract.
ghost use Rattle.swap_core.specs.Laws.{AnswersLieBetween, AnswersNeverFall, AnswersTellWhatIsSeen};

/// From any event of a schedule on, each reader that enters answers at least what was published before that
/// event, and at most what is published at the end.
pub fn answers_lie_between()
    ensures { AnswersLieBetween }
{}

/// The answers of one reader never fall.
pub fn answers_never_fall()
    ensures { AnswersNeverFall }
{}

/// What a reader answers is what it has then seen, and at least all that it had seen.
pub fn answers_tell_what_is_seen()
    ensures { AnswersTellWhatIsSeen }
{}
