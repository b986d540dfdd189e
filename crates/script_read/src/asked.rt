use crate::Command;
use line_spec::UpdateName;

/// What a line asks for, as far as it is read where there is no pattern host.
#[derive(Debug, Drop)]
pub enum Asked {
    /// This command, of which all was read.
    Command(Command),
    /// The update of this name, whose fields are still to be read.
    Update(UpdateName),
    /// Several updates, which are still to be read.
    Batch,
}
