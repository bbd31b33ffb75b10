// An instance as plain values, as it is looked at and kept.
ghost use Rattle.std.specs.Prelude.{◌≡◌};
ghost use Rattle.swf_strands.specs.Strands.{root_node};

use std::marker::Model;
use swf_document::DocKey;
use swf_duration::Moment;
use swf_frames::Forest;
use swf_stack::Stand;
use swf_text::Text;
use swf_value::Json;

/// The tree of an instance, as its strands. Contracts see it as the node of the definitions.
#[derive(Drop)]
pub struct Node {
    strands: Forest<Stand>,
}

/// What an instance is, with the key of its document.
#[derive(Drop)]
pub struct InstanceView {
    pub id: Text,
    pub key: DocKey,
    pub input: Json,
    pub started: Moment,
    pub context: Json,
    pub node: Node,
    pub number: u64,
}

impl Model for Node {
    ghost use Rattle.swf_meaning.specs.Codes.{node_code};
    ghost use Rattle.swf_meaning.specs.Node.{Node as Tree};

    ghost Value = { Tree };

    ghost coded = { node_code };

    ghost use Rattle.swf_strands.specs.Strands.{root_node};

    ghost view = { λ n. root_node n.strands.strands };
}

impl Node {
    /// The tree of these strands.
    pub fn of(strands: Forest<Stand>) -> Node
        ensures { result ≡ root_node strands.strands }
    {
        Node { strands }
    }

    /// On each strand the tasks that run, and at the top what stands innermost; the branches of a `fork` are the strands below its
    /// own.
    pub fn strands(&self) -> &Forest<Stand>
        ensures { root_node result.now.strands ≡ self.now }
    {
        &self.strands
    }
}
