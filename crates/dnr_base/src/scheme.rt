ghost use Rattle.std.specs.Prelude.{◌≡◌, Some};
ghost use Rattle.dnr_base.specs.Scheme.{scheme_named, scheme_text};

/// The schemes of the URLs that the engine decides.
#[derive(Clone, Copy, Debug, PartialEq, Eq, PartialOrd, Ord)]
pub enum Scheme {
    Http,
    Https,
    Ws,
    Wss,
    Ftp,
    ChromeExtension,
}

impl Scheme {
    /// All of them.
    pub const ALL: [Scheme; 6] = [
        Scheme::Http,
        Scheme::Https,
        Scheme::Ws,
        Scheme::Wss,
        Scheme::Ftp,
        Scheme::ChromeExtension,
    ];

    /// How a URL writes it, without the `:` behind it (URL Standard, 4.1). No two schemes have one name.
    pub fn name(self) -> &'static str
        ensures value { result.now ≡ scheme_text self }
        ensures read_back { scheme_named result.now ≡ Some self }
    {
        match self {
            Scheme::Http => "http",
            Scheme::Https => "https",
            Scheme::Ws => "ws",
            Scheme::Wss => "wss",
            Scheme::Ftp => "ftp",
            Scheme::ChromeExtension => "chrome-extension",
        }
    }

    /// The scheme that is written so, byte for byte. `None`: the engine decides no URL of such a scheme.
    pub fn named(name: &str) -> Option<Scheme>
        ensures { result ≡ scheme_named name.now }
    {
        Scheme::ALL
            .iter()
            .copied()
            .find(|scheme| scheme.name() == name)
    }
}
