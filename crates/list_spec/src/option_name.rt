ghost use Rattle.std.specs.Prelude.{◌≡◌, map};
ghost use Rattle.std.specs.Char.{to_ascii_lowercase};
ghost use Rattle.std.specs.Str.{bytes_eq};
ghost use Rattle.list_spec.specs.OptionName.{option_named, option_text};

/// The options of a filter that are known: Adblock Plus, "How to write filters", "Filter options".
#[derive(Clone, Copy, Debug, PartialEq, Eq)]
pub enum OptionName {
    Script,
    Image,
    Stylesheet,
    Object,
    XmlHttpRequest,
    Ping,
    WebSocket,
    Font,
    Media,
    Subdocument,
    Other,
    ThirdParty,
    Domain,
    MatchCase,
    Document,
}

impl OptionName {
    /// All of them.
    pub const ALL: [OptionName; 15] = [
        OptionName::Script,
        OptionName::Image,
        OptionName::Stylesheet,
        OptionName::Object,
        OptionName::XmlHttpRequest,
        OptionName::Ping,
        OptionName::WebSocket,
        OptionName::Font,
        OptionName::Media,
        OptionName::Subdocument,
        OptionName::Other,
        OptionName::ThirdParty,
        OptionName::Domain,
        OptionName::MatchCase,
        OptionName::Document,
    ];

    /// How a filter writes it, in lower case.
    pub fn text(self) -> &'static str
        ensures { result.now ≡ option_text self }
    {
        match self {
            OptionName::Script => "script",
            OptionName::Image => "image",
            OptionName::Stylesheet => "stylesheet",
            OptionName::Object => "object",
            OptionName::XmlHttpRequest => "xmlhttprequest",
            OptionName::Ping => "ping",
            OptionName::WebSocket => "websocket",
            OptionName::Font => "font",
            OptionName::Media => "media",
            OptionName::Subdocument => "subdocument",
            OptionName::Other => "other",
            OptionName::ThirdParty => "third-party",
            OptionName::Domain => "domain",
            OptionName::MatchCase => "match-case",
            OptionName::Document => "document",
        }
    }

    // Whether this is its name, in whatever case.
    fn is_named(self, name: &[u8]) -> bool
        ensures { result ≡ bytes_eq (option_text self) (map to_ascii_lowercase name.now) }
    {
        self.text().as_bytes().eq_ignore_ascii_case(name)
    }

    /// The option of a name, in whatever case. `None`: no known option has this name.
    pub fn named(name: &[u8]) -> Option<OptionName>
        ensures { result ≡ option_named (map to_ascii_lowercase name.now) }
    {
        OptionName::ALL
            .iter()
            .copied()
            .find(|option| option.is_named(name))
    }
}
