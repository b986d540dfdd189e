ghost use Rattle.std.specs.Prelude.{◌≡◌};
ghost use Rattle.line_spec.specs.CommandPath.{path_name};

use crate::UpdateField;

/// The field of a script line that a fault of the line names.
#[derive(Clone, Copy, Debug, PartialEq, Eq)]
pub enum CommandPath {
    /// What the line asks for. A line that is no object is at fault here.
    Cmd,
    /// The URL that is asked for.
    Url,
    /// The resource type.
    Kind,
    /// Who asks.
    Initiator,
    /// The method.
    Method,
    /// The tab.
    Tab,
    /// The frames.
    Frames,
    /// The headers that are sent.
    RequestHeaders,
    /// The headers that are received.
    ResponseHeaders,
    /// A field of the update that the line asks for.
    Update(UpdateField),
    /// The updates of a batch. One that is no object is at fault here.
    Updates,
    /// What one of them asks for.
    UpdatesCmd,
    /// A field of one of them.
    InUpdates(UpdateField),
}

impl CommandPath {
    /// The key under which the field stands in the line; behind a dot that in an update of a batch.
    pub fn name(self) -> &'static str
        ensures { result.now ≡ path_name self }
    {
        match self {
            CommandPath::Cmd => "cmd",
            CommandPath::Url => "url",
            CommandPath::Kind => "type",
            CommandPath::Initiator => "initiator",
            CommandPath::Method => "method",
            CommandPath::Tab => "tab",
            CommandPath::Frames => "frames",
            CommandPath::RequestHeaders => "requestHeaders",
            CommandPath::ResponseHeaders => "responseHeaders",
            CommandPath::Update(field) => field.name(),
            CommandPath::Updates => "updates",
            CommandPath::UpdatesCmd => "updates.cmd",
            CommandPath::InUpdates(field) => field.name_in_batch(),
        }
    }
}
