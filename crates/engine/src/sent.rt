// An engine may be sent to another thread: what `Send` asks of it, shown once for all who send one.
use crate::Engine;

/// Shows that an engine may be sent to another thread. It does nothing.
pub fn engines_are_sent() {
    is_sent::<Engine>();
}

fn is_sent<T: Send>() {}
