//! Laws of rules that are kept in a file, stated in `specs/Laws.antt`. Each function does nothing; its contract is the law.

ghost use Rattle.keep_run_spec.specs.Laws.{AnswersGoOn};

/// What first lines say is a beginning of what they say with others behind them.
pub fn answers_go_on()
    ensures { AnswersGoOn }
{}
