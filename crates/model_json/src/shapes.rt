ghost use Rattle.std.specs.Prelude.{◌≡◌, List, ℕ, Some, None, is_some, map, option_map, IfSome, IfNone};
ghost use Rattle.std.specs.List.{list_all};
ghost use Rattle.serde_json.specs.Find.{as_str};
ghost use Rattle.serde_json.specs.View.{view};
ghost use Rattle.model_json.specs.Model.{each, repertoire_in, repertoire_of, shape_of, tasks_in, texts_in};

use serde_json::Value;
use template_core::Repertoire;

/// What a value says as a whole: the items of `constraints`, those of `tasks`, which are texts, and its repertoire.
#[derive(Clone, Copy)]
pub(crate) struct Shape<'a> {
    pub constraints: &'a [Value],
    pub tasks: &'a [Value],
    pub repertoire: Repertoire,
}

/// The parts of a value that has the shape of a model.
pub(crate) fn shape_of(value: &Value) -> Option<Shape<'_>>
    ensures some { IfSome result (λ shape. (tasks : List (List ℕ)) × (each as_str (map view shape.tasks.now) ≡ Some tasks)
        × (shape_of (view value.now) ≡ Some (record { constraints = map view shape.constraints.now; tasks = tasks; repertoire = shape.repertoire }))) }
    ensures none { IfNone result (shape_of (view value.now) ≡ None) }
{
    let constraints = value.get("constraints")?.as_array()?.as_slice();
    let tasks = tasks_in(value)?;
    let repertoire = repertoire_of(value)?;
    Some(Shape {
        constraints,
        tasks,
        repertoire,
    })
}

/// The repertoire of its version: the first where it has none. None where it has another version.
fn repertoire_of(value: &Value) -> Option<Repertoire>
    ensures { result ≡ repertoire_of (view value.now) }
{
    match value.get("version") {
        Some(version) => repertoire_in(version),
        None => Some(Repertoire::First),
    }
}

/// The repertoire of a version. One that is no whole number is read past.
fn repertoire_in(version: &Value) -> Option<Repertoire>
    ensures { result ≡ repertoire_in (view version.now) }
{
    match version.as_number() {
        Some(number) if !number.is_f64() => match number.as_u64() {
            Some(1) => Some(Repertoire::First),
            Some(2) => Some(Repertoire::Second),
            _ => None,
        },
        _ => Some(Repertoire::First),
    }
}

/// The tasks, where they are texts; none where the member is left out.
fn tasks_in(value: &Value) -> Option<&[Value]>
    ensures some { IfSome result (λ list. (texts : List (List ℕ)) × (each as_str (map view list.now) ≡ Some texts)
        × (tasks_in (view value.now) ≡ Some texts)) }
    ensures none { IfNone result (tasks_in (view value.now) ≡ None) }
{
    match value.get("tasks") {
        Some(tasks) => texts_in(tasks),
        None => Some(&[]),
    }
}

/// The elements of a list of texts.
pub(crate) fn texts_in(value: &Value) -> Option<&[Value]>
    ensures some { IfSome result (λ list. (texts : List (List ℕ)) × (each as_str (map view list.now) ≡ Some texts)
        × (texts_in (view value.now) ≡ Some texts)) }
    ensures none { IfNone result (texts_in (view value.now) ≡ None) }
{
    let list = value.as_array()?.as_slice();
    if are_texts(list) { Some(list) } else { None }
}

fn are_texts(list: &[Value]) -> bool
    ensures { result ≡ list_all (λ element. is_some (as_str (view element))) list.now }
{
    list.iter().all(|element| element.is_string())
}
