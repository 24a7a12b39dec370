ghost use Rattle.std.specs.Prelude.{◌≡◌, ◌≤◌, [], length, map, All, Ok, Err, IfOk, IfErr};
ghost use Rattle.std.specs.List.{filter_map};
ghost use Rattle.serde_json.specs.Find.{as_str};
ghost use Rattle.serde_json.specs.View.{view};
ghost use Rattle.decl_base.specs.Limits.{standard};
ghost use Rattle.event_log.specs.Logs.{first_seen, StandOnce};
ghost use Rattle.template_core.specs.Constraints.{IsWellMadeFor};
ghost use Rattle.model_json.specs.Model.{json_of, model_of, model_of_bytes, items_read, within, IsOfModel, ModelCause};

use crate::items::read_item;
use crate::known::KnownModel;
use crate::shapes::shape_of;
use decl_base::{Limits, Refusal};
use event_log::Alphabet;
use serde_json::Value;
use std::alloc::Global;
use template_core::Repertoire;

/// The model that the bytes are, as JSON.
///
/// Members that no rule names are read past, whatever they hold. Refusals, by the first rule that fails: `NotJson`,
/// `ModelShape`, `Candidates`, `Activities`, `UnknownTemplate`, `Parameters`, `SameParameter`, where constraints are
/// counted from 1, and 0 is the value as a whole. `Memory` comes from any call.
pub fn read_model(alloc: Global, bytes: &[u8]) -> Result<KnownModel, Refusal>
    ensures model { IfOk result (λ model. model_of_bytes bytes.now ≡ Ok model) }
    ensures once { IfOk result (λ model. StandOnce model.names) }
    ensures made { IfOk result (λ model. All (IsWellMadeFor (length model.names)) model.constraints) }
    ensures few { IfOk result (λ model. (length model.names ≤ standard.activities) × (length model.constraints ≤ standard.candidates)) }
    ensures refusal { IfErr result (ModelCause (model_of_bytes bytes.now)) }
    ensures kind { IfErr result IsOfModel }
{
    let value = json_of(alloc, bytes)?;
    model_of(alloc, &value)
}

/// The value that the bytes are, where they are JSON.
pub(crate) fn json_of(alloc: Global, bytes: &[u8]) -> Result<Value, Refusal>
    ensures value { IfOk result (λ value. json_of bytes.now ≡ Ok (view value)) }
    ensures refusal { IfErr result (ModelCause (json_of bytes.now)) }
{
    match Value::from_slice(alloc, bytes) {
        Ok(value) => Ok(value),
        Err(error) => {
            if error.is_memory() {
                Err(Refusal::Memory)
            } else {
                Err(Refusal::NotJson)
            }
        }
    }
}

/// The model that the value is.
fn model_of(alloc: Global, value: &Value) -> Result<KnownModel, Refusal>
    ensures model { IfOk result (λ model. model_of (view value.now) ≡ Ok model) }
    ensures refusal { IfErr result (ModelCause (model_of (view value.now))) }
{
    let Some(shape) = shape_of(value) else {
        return Err(Refusal::ModelShape { at: 0 });
    };
    let count = shape.constraints.len() as u64;
    if count > Limits::standard().candidates {
        return Err(Refusal::Candidates { count });
    }
    let names = task_names(alloc, shape.tasks)?;
    constraints_of(alloc, names, shape.repertoire, shape.constraints)
}

/// The names of the tasks, each once.
pub(crate) fn task_names(alloc: Global, tasks: &[Value]) -> Result<Alphabet, Refusal>
    ensures names { IfOk result (λ names. within (first_seen (filter_map as_str (map view tasks.now))) ≡ Ok names.names) }
    ensures limit { IfOk result (λ names. names.limit ≡ standard.activities) }
    ensures refusal { IfErr result (ModelCause (within (first_seen (filter_map as_str (map view tasks.now))))) }
{
    let mut names = Alphabet::new(alloc, Limits::standard().activities);
    for task in tasks {
        if let Some(name) = task.as_str() {
            names.add(name)?;
        }
    }
    Ok(names)
}

/// The model of the items, of templates of the repertoire, behind the names of the tasks.
fn constraints_of(
    alloc: Global,
    names: Alphabet,
    repertoire: Repertoire,
    items: &[Value],
) -> Result<KnownModel, Refusal>
    requires limit { names.limit ≡ standard.activities }
    requires within { length names.names ≤ standard.activities }
    requires few { length items.now ≤ standard.candidates }
    ensures model { IfOk result (λ model. items_read repertoire 1 (record { names = names.names; constraints = [] }) (map view items.now) ≡ Ok model) }
    ensures refusal { IfErr result (ModelCause (items_read repertoire 1 (record { names = names.names; constraints = [] }) (map view items.now))) }
{
    let mut names = names;
    let mut constraints = Vec::new(alloc);
    for (place, item) in items.iter().enumerate() {
        constraints.push(read_item(&mut names, repertoire, place as u32 + 1, item)?)?;
    }
    Ok(KnownModel::new(names, constraints))
}
