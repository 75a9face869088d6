//! The methods of routes.
ghost use Rattle.std.specs.Prelude.{◌≡◌, Some};
ghost use Rattle.mds_http.specs.Method.{method_name};

use std::fmt;

/// The method of a route (RFC 9110, section 9.3).
#[derive(Clone, Copy, Debug, PartialEq, Eq)]
pub enum Method {
    /// A request looks at what is there.
    Get,
    /// A request has items.
    Post,
}

impl Method {
    /// Its name, as it stands in a request line and in a field `allow`.
    pub fn name(self) -> &'static str
        ensures { result.now ≡ method_name self }
    {
        match self {
            Method::Get => "GET",
            Method::Post => "POST",
        }
    }
}

impl fmt::Display for Method {
    ghost output = { λ method. Some (method_name method) };

    fn fmt<W: fmt::Write>(&self, f: &mut fmt::Formatter<W>) -> fmt::Result {
        f.write_str(self.name())
    }
}
