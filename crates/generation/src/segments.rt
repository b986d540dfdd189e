// In how many segments rules stand.
ghost use Rattle.std.specs.Prelude.{◌≤◌, ◌+◌, ◌*◌, ◌^◌, length};
ghost use Rattle.std.specs.List.{flat_map};
ghost use Rattle.generation.specs.Plain.{rules_of};
ghost use Rattle.generation.specs.Segments.{AreMost, added_lists, lists_of};

use ruleset_store::InstalledExtension;

// Those of the list of an extension that has more.
fn segments_of(extension: &InstalledExtension) -> usize
    ensures most { AreMost (lists_of extension.now) result }
    ensures few { 2 ^ result ≤ 2 * length (rules_of extension.now) + 1 }
{
    let session = extension.session().segments().len();
    let dynamic = extension.dynamic().segments().len();
    session.max(dynamic)
}

/// Those of the list that has most of them.
pub(crate) fn most_segments(extensions: &[InstalledExtension]) -> usize
    ensures most { AreMost (added_lists extensions.now) result }
    ensures few { 2 ^ result ≤ 2 * length (flat_map rules_of extensions.now) + 1 }
{
    let mut most = 0;
    for extension in extensions {
        most = segments_of(extension).max(most);
    }
    most
}
