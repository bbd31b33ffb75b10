// What a `call` calls (DSL 1.0.0, reference, "Call" and "HTTP Call").
use crate::boxed::Boxed;
use crate::listing::Listing;
use crate::template::{Field, Template};
use swf_calls::Method;
use swf_expr::Expr;
use swf_text::Text;

/// What a `call` calls.
#[derive(Drop)]
pub enum Callee {
    Http(Boxed<HttpSpec>),
    /// A function of the document.
    Function { name: Text, with: Option<Template> },
}

/// A request that is filled in when it is sent.
#[derive(Drop)]
pub struct HttpSpec {
    pub method: Method,
    pub endpoint: Endpoint,
    pub headers: Listing<Field>,
    pub query: Listing<Field>,
    pub body: Option<Template>,
    /// Whether the output is the whole response, and not its content alone.
    pub response: bool,
    pub redirect: bool,
}

/// Where a request goes.
#[derive(Drop)]
pub enum Endpoint {
    /// A text in which `{name}` stands for a value.
    Pattern(Text),
    /// An expression, which stands in place of the text.
    Run(Expr),
    /// An expression in the member `uri` of an object.
    Uri(Expr),
}
