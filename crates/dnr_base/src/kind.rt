ghost use Rattle.std.specs.Prelude.{◌≡◌, ◌<◌, Some};
ghost use Rattle.std.specs.List.{slice_get};
ghost use Rattle.dnr_base.specs.Kind.{all_kinds, place_of, name_of, kind_named};

/// What a request is for: the `ResourceType` of Chrome's reference of declarativeNetRequest, in its order.
#[derive(Clone, Copy, Debug, PartialEq, Eq, PartialOrd, Ord)]
pub enum Kind {
    MainFrame,
    SubFrame,
    Stylesheet,
    Script,
    Image,
    Font,
    Object,
    XmlHttpRequest,
    Ping,
    CspReport,
    Media,
    WebSocket,
    WebTransport,
    WebBundle,
    Other,
}

impl Kind {
    /// All of them, in the order of the reference.
    pub const ALL: [Kind; 15] = [
        Kind::MainFrame,
        Kind::SubFrame,
        Kind::Stylesheet,
        Kind::Script,
        Kind::Image,
        Kind::Font,
        Kind::Object,
        Kind::XmlHttpRequest,
        Kind::Ping,
        Kind::CspReport,
        Kind::Media,
        Kind::WebSocket,
        Kind::WebTransport,
        Kind::WebBundle,
        Kind::Other,
    ];

    /// Its place in the reference's list, from 0.
    pub fn place(self) -> u32
        ensures value { result ≡ place_of self }
        ensures in_list { slice_get all_kinds result ≡ Some self }
        ensures small { result < 15 }
    {
        self as u32
    }

    /// How the reference writes it. No two types have one name.
    pub fn name(self) -> &'static str
        ensures value { result.now ≡ name_of self }
        ensures read_back { kind_named result.now ≡ Some self }
    {
        match self {
            Kind::MainFrame => "main_frame",
            Kind::SubFrame => "sub_frame",
            Kind::Stylesheet => "stylesheet",
            Kind::Script => "script",
            Kind::Image => "image",
            Kind::Font => "font",
            Kind::Object => "object",
            Kind::XmlHttpRequest => "xmlhttprequest",
            Kind::Ping => "ping",
            Kind::CspReport => "csp_report",
            Kind::Media => "media",
            Kind::WebSocket => "websocket",
            Kind::WebTransport => "webtransport",
            Kind::WebBundle => "webbundle",
            Kind::Other => "other",
        }
    }

    /// The type that the reference writes so, byte for byte. `None`: it writes no type so.
    pub fn named(name: &str) -> Option<Kind>
        ensures { result ≡ kind_named name.now }
    {
        Kind::ALL.iter().copied().find(|kind| kind.name() == name)
    }
}
