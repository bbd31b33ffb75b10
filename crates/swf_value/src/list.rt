// The items of a list, which several values share.
ghost use Rattle.std.specs.Prelude.{◌≡◌, ◌++◌, ◌∷◌, [], IfOk, IfErr};

use crate::value::Json;
use std::alloc::{AllocError, Global};
use std::marker::Model;
use std::sync::Arc;

/// The items of a list. A copy shares them. Contracts see a list of values.
#[cycle(json)]
#[derive(Drop)]
pub struct JsonList {
    shared: Arc<Vec<Json>>,
}

impl Model for JsonList {
    ghost use Rattle.std.specs.Prelude.{List};
    ghost use Rattle.std.specs.Coded.{coded_list};
    ghost use Rattle.std.specs.Arc.{arc_value};
    ghost use Rattle.swf_value.specs.Value.{Value as JsonValue};
    ghost use Rattle.swf_value.specs.ValueCode.{value_code};

    ghost Value = { List JsonValue };

    ghost coded = { coded_list value_code };

    ghost view = { λ s. (arc_value s.shared).items };

    ghost use Rattle.swf_value.specs.Weight.{weight_list, falls_list};

    ghost size = { weight_list };

    ghost size_decreases = { λ a h. falls_list (arc_value a.shared).items };
}

impl JsonList {
    pub fn new(alloc: Global, items: Vec<Json>) -> Result<JsonList, AllocError>
        ensures { IfOk result (λ list. list ≡ items.items) }
    {
        let shared = Arc::new(alloc, items)?;
        Ok(JsonList { shared })
    }

    /// The same items once more. It copies nothing that is inside.
    pub fn copy(&self) -> Result<JsonList, AllocError>
        ensures { IfOk result (λ list. list ≡ self.now) }
    {
        let shared = Arc::try_clone(&self.shared)?;
        Ok(JsonList { shared })
    }

    pub fn as_slice(&self) -> &[Json]
        ensures { result.now ≡ self.now }
    {
        self.shared.as_slice()
    }

    /// One more item at the end: in place where this is the only owner, else on a new vector.
    pub fn push(&mut self, item: Json) -> Result<(), AllocError>
        ensures ok { IfOk result (λ _. self.new ≡ self.old ++ item ∷ []) }
        ensures err { IfErr result (λ _. self.new ≡ self.old) }
    {
        Arc::make_mut(&mut self.shared)?.push(item)?;
        Ok(())
    }
}
