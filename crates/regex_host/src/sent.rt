// A host of patterns may be sent to another thread: what `Send` asks of a `PackHost`, shown once for all who send one.
use crate::PackHost;

/// Shows that a `PackHost` may be sent to another thread. It does nothing.
pub fn pack_hosts_are_sent() {
    is_sent::<PackHost>();
}

fn is_sent<T: Send>() {}
