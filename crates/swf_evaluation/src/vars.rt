// Names and their values, and lists of values.
ghost use Rattle.std.specs.Prelude.{◌≡◌};

use std::marker::Model;
use swf_text::Text;
use swf_value::Json;

/// A name and its value.
#[derive(Drop)]
pub struct Variable {
    pub name: Text,
    pub value: Json,
}

/// Names and their values. Of equal names the last counts. Contracts see them as their list.
#[derive(Drop)]
pub struct Vars {
    variables: Vec<Variable>,
}

impl Model for Vars {
    ghost use Rattle.std.specs.Prelude.{List};
    ghost use Rattle.std.specs.Coded.{coded_list};
    ghost use Rattle.swf_evaluation.specs.declared.vars.Variable.{Variable};
    ghost use Rattle.swf_evaluation.specs.VariableCode.{variable_code};

    ghost Value = { List Variable };

    ghost coded = { coded_list variable_code };

    ghost view = { λ v. v.variables.items };
}

impl Vars {
    /// These names and values. It takes no memory.
    pub fn of(variables: Vec<Variable>) -> Vars
        ensures { result ≡ variables.items }
    {
        Vars { variables }
    }

    /// The names and values in order.
    pub fn as_slice(&self) -> &[Variable]
        ensures { result.now ≡ self.now }
    {
        self.variables.as_slice()
    }
}

/// Values in order. Contracts see them as their list.
#[derive(Drop)]
pub struct Values {
    items: Vec<Json>,
}

impl Model for Values {
    ghost use Rattle.std.specs.Prelude.{List};
    ghost use Rattle.std.specs.Coded.{coded_list};
    ghost use Rattle.swf_value.specs.Value.{Value as JsonValue};
    ghost use Rattle.swf_value.specs.ValueCode.{value_code};

    ghost Value = { List JsonValue };

    ghost coded = { coded_list value_code };

    ghost view = { λ v. v.items.items };
}

impl Values {
    /// These values. It takes no memory.
    pub fn of(items: Vec<Json>) -> Values
        ensures { result ≡ items.items }
    {
        Values { items }
    }

    /// The values in order.
    pub fn as_slice(&self) -> &[Json]
        ensures { result.now ≡ self.now }
    {
        self.items.as_slice()
    }
}
