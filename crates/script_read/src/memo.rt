// What is kept from one line to the next.
ghost use Rattle.std.specs.Prelude.{◌≡◌, Ok, IfOk, IfErr, IsTrue};
ghost use Rattle.line_spec.specs.IsFault.{IsFaultOf};
ghost use Rattle.line_spec.specs.RequestLine as spec;

use dnr_base::{NoMemory, Text};
use json::Scratch;
use line_spec::{CommandPath, LineFault};
use request_texts::asking_host;
use std::alloc::Global;
use std::marker::Model;

/// What a reader of lines keeps from one line to the next: memory for JSON, and who asked last, since most requests
/// are asked by whoever asked before.
#[derive(Drop)]
pub struct Memo {
    pub(crate) scratch: Scratch,
    // While the first is lent to the fields of a request, its frames and headers are read with this one.
    pub(crate) spare: Scratch,
    pub(crate) asker: Option<Asker>,
}

impl Memo {
    /// Nothing was read yet.
    pub fn new(alloc: Global) -> Memo {
        Memo {
            scratch: Scratch::new(alloc),
            spare: Scratch::new(alloc),
            asker: None,
        }
    }
}

// Who asks by a text. A clause sees the text.
#[derive(Drop)]
pub(crate) struct Asker {
    text: Text,
    host: Option<Text>,
}

impl Model for Asker {
    ghost use Rattle.std.specs.Prelude.{◌≡◌, List, ℕ, Ok};
    ghost use Rattle.line_spec.specs.declared.command_path.CommandPath.TheVariants.{Initiator};
    ghost use Rattle.line_spec.specs.RequestLine as spec;

    ghost Value = { List ℕ };

    ghost view = { λ a. a.text };

    ghost invariant = { λ a. spec.asking_host Initiator a.text ≡ Ok a.host };
}

impl Asker {
    // The text is read so.
    fn build(text: Text, host: Option<Text>) -> Asker
        requires { spec.asking_host CommandPath.Initiator text ≡ Ok host }
        ensures { result ≡ text }
    {
        Asker { text, host }
    }

    fn has_text(&self, text: &str) -> bool
        ensures { IsTrue result → self.now ≡ text.now }
    {
        self.text.as_str() == text
    }

    // The host, once more.
    fn host_again(&self, alloc: Global) -> Result<Option<Text>, NoMemory>
        ensures { IfOk result (λ host. spec.asking_host CommandPath.Initiator self.now ≡ Ok host) }
    {
        match &self.host {
            Some(host) => Ok(Some(host.copy(alloc)?)),
            None => Ok(None),
        }
    }
}

// The host of who asks by this text, which is read anew where it is not the text of before.
pub(crate) fn asking_again(
    alloc: Global,
    asker: &mut Option<Asker>,
    text: &str,
) -> Result<Option<Text>, LineFault>
    ensures read { IfOk result (λ host. spec.asking_host CommandPath.Initiator text.now ≡ Ok host) }
    ensures refused { IfErr result (IsFaultOf (spec.asking_host CommandPath.Initiator text.now)) }
{
    if let Some(known) = asker {
        if known.has_text(text) {
            return Ok(known.host_again(alloc)?);
        }
    }
    let host = asking_host(alloc, CommandPath::Initiator, text)?;
    let text = Text::build(String::from_str(alloc, text)?);
    let known = Asker::build(text, host);
    let host = known.host_again(alloc)?;
    *asker = Some(known);
    Ok(host)
}
