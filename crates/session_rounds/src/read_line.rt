ghost use Rattle.std.specs.Prelude.{◌≡◌};
ghost use Rattle.session_rounds.specs.Lines.{is_asking, read_seen};
ghost use Rattle.session_spec.specs.Rounds.{is_sync};

use script_read::{Command, LineFault};

/// A line of a round, as it was read.
#[derive(Debug, Drop)]
pub struct ReadLine {
    /// Its number, from 1.
    pub number: u32,
    /// What it asks for, or what is wrong with it.
    pub read: Result<Command, LineFault>,
}

impl ReadLine {
    /// Whether it asks a seat.
    pub fn asks(&self) -> bool
        ensures { result ≡ is_asking self.now }
    {
        match &self.read {
            Ok(Command::Request(_) | Command::Explain(_)) => true,
            Ok(Command::Blank | Command::Sync | Command::Update(_) | Command::Batch(_)) => false,
            Err(_) => false,
        }
    }

    /// Whether it ends its round.
    pub fn syncs(&self) -> bool
        ensures { result ≡ is_sync (read_seen self.now.read) }
    {
        match &self.read {
            Ok(Command::Sync) => true,
            Ok(
                Command::Blank
                | Command::Request(_)
                | Command::Explain(_)
                | Command::Update(_)
                | Command::Batch(_),
            ) => false,
            Err(_) => false,
        }
    }

    /// Whether it asks for an update, or for several.
    pub fn updates(&self) -> bool {
        matches!(&self.read, Ok(Command::Update(_) | Command::Batch(_)))
    }
}
