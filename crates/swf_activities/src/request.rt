// A request that is sent (DSL 1.0.0, reference, "HTTP Call").
ghost use Rattle.swf_meaning.specs.Call.{calling_http, requested};
ghost use Rattle.swf_rule.specs.Rules.{line_in, site_in};
ghost use Rattle.swf_scene.specs.Halts.{Gives, Makes};

use crate::parts::{body_by, filled_members, headers_by, uri_by};
use swf_calls::CallRequest;
use swf_catalog::Shared;
use swf_document::HttpSpec;
use swf_rule::{Rule, becoming};
use swf_scene::Halt;
use swf_stack::{Made, Top};

// The request that a task fills.
fn requested(rule: &Rule, spec: &HttpSpec) -> Result<CallRequest, Halt>
    ensures { Gives (requested (line_in rule.now) rule.now.running.now spec.now) result }
{
    let query = filled_members(rule, spec.query.as_slice())?;
    let uri = uri_by(rule, query.as_slice(), &spec.endpoint)?;
    let headers = headers_by(rule, spec.headers.as_slice())?;
    let body = body_by(rule, spec.body.as_ref())?;
    Ok(CallRequest::new(spec.method, uri, headers, body))
}

/// A `call: http` awaits the answer to its request, as an activity of the instance, which uses a number.
pub fn calling_http(rule: &Rule, spec: &HttpSpec) -> Result<Made, Halt>
    ensures { Makes (line_in rule.now) (calling_http (site_in rule.now) (line_in rule.now) rule.now.running.now spec.now) result }
{
    let request = requested(rule, spec)?;
    let top = Top::Awaiting {
        running: rule.running.copy()?,
        activity: rule.next_id()?,
        request: Shared::new(rule.alloc, request)?,
        answer: None,
    };
    Ok(Made {
        used: 1,
        ..becoming(rule.alloc, top)?
    })
}
