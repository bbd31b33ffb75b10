// The messages of HTTP, as values.
use swf_calls::Headers;
use swf_text::Text;

/// A request. The headers stand by ascending name; the body has at most 1,048,576 bytes where it was read.
#[derive(Drop)]
pub struct Request {
    pub method: Text,
    pub target: Text,
    pub headers: Headers,
    pub body: Vec<u8>,
}

/// A response, of status 100 to 599. The headers stand by ascending name; the body has at most 1,048,576 bytes where it was read.
#[derive(Drop)]
pub struct Response {
    pub status: u16,
    pub headers: Headers,
    pub body: Vec<u8>,
}
