ghost use Rattle.header_actions.specs.Again.{ReadsAgain};

/// A change that was read, by its name in lower case, its operation and its value, is read again as itself.
pub fn changes_read_again()
    ensures { ReadsAgain }
{}
