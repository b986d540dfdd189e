ghost use Rattle.std.specs.Prelude.{◌≡◌, ◌<◌, Some};
ghost use Rattle.std.specs.List.{slice_get};
ghost use Rattle.dnr_base.specs.Method.{all_methods, place_of, name_of, method_named};

/// How a request asks: the `RequestMethod` of Chrome's reference of declarativeNetRequest, in its order.
#[derive(Clone, Copy, Debug, PartialEq, Eq, PartialOrd, Ord)]
pub enum Method {
    /// HTTP's `CONNECT`.
    Connect,
    /// HTTP's `DELETE`.
    Delete,
    /// HTTP's `GET`.
    Get,
    /// HTTP's `HEAD`.
    Head,
    /// HTTP's `OPTIONS`.
    Options,
    /// HTTP's `PATCH`.
    Patch,
    /// HTTP's `POST`.
    Post,
    /// HTTP's `PUT`.
    Put,
    /// Any other method.
    Other,
}

impl Method {
    /// All of them, in the order of the reference.
    pub const ALL: [Method; 9] = [
        Method::Connect,
        Method::Delete,
        Method::Get,
        Method::Head,
        Method::Options,
        Method::Patch,
        Method::Post,
        Method::Put,
        Method::Other,
    ];

    /// Its place in the reference's list, from 0.
    pub fn place(self) -> u32
        ensures value { result ≡ place_of self }
        ensures in_list { slice_get all_methods result ≡ Some self }
        ensures small { result < 9 }
    {
        self as u32
    }

    /// How the reference writes it. No two methods have one name.
    pub fn name(self) -> &'static str
        ensures value { result.now ≡ name_of self }
        ensures read_back { method_named result.now ≡ Some self }
    {
        match self {
            Method::Connect => "connect",
            Method::Delete => "delete",
            Method::Get => "get",
            Method::Head => "head",
            Method::Options => "options",
            Method::Patch => "patch",
            Method::Post => "post",
            Method::Put => "put",
            Method::Other => "other",
        }
    }

    /// The method that the reference writes so, byte for byte. `None`: it writes no method so.
    pub fn named(name: &str) -> Option<Method>
        ensures { result ≡ method_named name.now }
    {
        Method::ALL
            .iter()
            .copied()
            .find(|method| method.name() == name)
    }
}
