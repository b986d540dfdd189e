// The path of a rules file in its extension's folder.
ghost use Rattle.std.specs.Prelude.{◌≡◌, ◌==◌};
ghost use Rattle.std.specs.List.{list_any};
ghost use Rattle.load_spec.specs.Manifest as spec;

// Whether the path stays in the folder.
pub(crate) fn is_inside(path: &str) -> bool
    ensures { result ≡ spec.is_inside path.now }
{
    let bytes = path.as_bytes();
    !bytes.is_empty() && bytes[0] != b'/' && !has_backslash(bytes) && !goes_up(path)
}

fn has_backslash(path: &[u8]) -> bool
    ensures { result ≡ list_any (λ b. b == 92) path.now }
{
    path.iter().any(|byte| *byte == b'\\')
}

// Whether some part between slashes is `..`.
fn goes_up(path: &str) -> bool
    ensures { result ≡ spec.goes_up path.now }
{
    path.split('/').any(|part| part == "..")
}
