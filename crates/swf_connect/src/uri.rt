// By what a URI begins.
ghost use Rattle.std.specs.Prelude.{◌≡◌};
ghost use Rattle.std.specs.Str.{encode_utf8_all};
ghost use Rattle.swf_connect.specs.Uris.{has_scheme};

use swf_text::Text;

/// Whether a URI begins with a scheme and `:`.
pub(crate) fn has_scheme(uri: &Text, scheme: &[u8]) -> bool
    ensures { result ≡ has_scheme scheme.now (encode_utf8_all uri.now) }
{
    let bytes = uri.as_str().as_bytes();
    bytes.starts_with(scheme) && bytes.len() > scheme.len() && bytes[scheme.len()] == b':'
}
