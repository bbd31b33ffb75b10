// The methods of requests.
ghost use Rattle.std.specs.Prelude.{◌≡◌, IfOk};
ghost use Rattle.swf_calls.specs.Request.{method_name};

use std::alloc::{AllocError, Global};
use swf_text::{Text, word};

/// A method of HTTP (RFC 9110, section 9; RFC 5789).
#[derive(Clone, Copy, Debug, PartialEq, Eq)]
pub enum Method {
    Get,
    Head,
    Post,
    Put,
    Delete,
    Patch,
    Options,
}

impl Method {
    /// Its name, in upper-case letters.
    pub fn name(self, alloc: Global) -> Result<Text, AllocError>
        ensures { IfOk result (λ t. t ≡ method_name self) }
    {
        match self {
            Method::Get => word(alloc, "GET"),
            Method::Head => word(alloc, "HEAD"),
            Method::Post => word(alloc, "POST"),
            Method::Put => word(alloc, "PUT"),
            Method::Delete => word(alloc, "DELETE"),
            Method::Patch => word(alloc, "PATCH"),
            Method::Options => word(alloc, "OPTIONS"),
        }
    }
}
