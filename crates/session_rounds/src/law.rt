ghost use Rattle.session_rounds.specs.Read.{AnsweredIsServed};

/// A round that is answered over the lines that were read is one that a session may serve: each request is answered on
/// some state that the round passes through, and the numbers of a seat never fall. The function does nothing.
pub fn answered_is_served()
    ensures { AnsweredIsServed }
{}
