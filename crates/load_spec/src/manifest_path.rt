ghost use Rattle.std.specs.Prelude.{◌≡◌};
ghost use Rattle.load_spec.specs.ManifestPath.{path_name};

/// The field of an extension's manifest that is at fault, the outermost first.
#[derive(Clone, Copy, Debug, PartialEq, Eq)]
pub enum ManifestPath {
    /// The manifest is no object.
    Manifest,
    /// `declarative_net_request` is given and no object.
    DeclarativeNetRequest,
    /// `rule_resources` is given and no list of objects.
    RuleResources,
    /// The id of a ruleset is no text of 1 to 256 bytes, begins with `_`, or is that of an earlier one.
    Id,
    /// Whether a ruleset is enabled is not said by `true` or `false`.
    Enabled,
    /// The path of a ruleset is no text, is empty, or leaves the extension's folder.
    Path,
    /// `host_permissions` is given and no list of texts.
    HostPermissions,
}

impl ManifestPath {
    /// The key under which the field stands; the whole is `manifest`.
    pub fn name(self) -> &'static str
        ensures { result.now ≡ path_name self }
    {
        match self {
            ManifestPath::Manifest => "manifest",
            ManifestPath::DeclarativeNetRequest => "declarative_net_request",
            ManifestPath::RuleResources => "rule_resources",
            ManifestPath::Id => "id",
            ManifestPath::Enabled => "enabled",
            ManifestPath::Path => "path",
            ManifestPath::HostPermissions => "host_permissions",
        }
    }
}
