ghost use Rattle.std.specs.Prelude.{◌≡◌, ◌≤◌, List, ℕ, Ok, Some, None, length, is_some, map, option_map, option_and_then, IfOk, IfErr, OnOk, IfSome, IfNone};
ghost use Rattle.std.specs.List.{list_all};
ghost use Rattle.serde_json.specs.View.{view};
ghost use Rattle.decl_base.specs.Limits.{standard};
ghost use Rattle.template_core.specs.Constraints.{arity, IsTemplate};
ghost use Rattle.model_json.specs.Model.{each, texts_in, item_of, item_read, kind_named, only, activities_in, activities, is_twice, ModelCause};

use crate::shapes::texts_in;
use decl_base::Refusal;
use event_log::Alphabet;
use serde_json::Value;
use template_core::{Constraint, Kind, Repertoire, is_of};
use template_set::{arity, kind_of};

/// What an item of `constraints` says: the name of its template, and a list of texts for each parameter.
#[derive(Clone, Copy)]
struct Item<'a> {
    template: &'a str,
    parameters: &'a [Value],
}

/// The constraint of the item with this number, of a template of the repertoire, over the names with its own.
pub(crate) fn read_item(
    names: &mut Alphabet,
    repertoire: Repertoire,
    number: u32,
    value: &Value,
) -> Result<Constraint, Refusal>
    requires limit { names.old.limit ≡ standard.activities }
    requires within { length names.old.names ≤ standard.activities }
    ensures ok { IfOk result (λ constraint. item_read repertoire number names.old.names (view value.now) ≡ Ok (constraint, names.new.names)) }
    ensures limit { OnOk result (names.new.limit ≡ standard.activities) }
    ensures within { OnOk result (length names.new.names ≤ standard.activities) }
    ensures refusal { IfErr result (ModelCause (item_read repertoire number names.old.names (view value.now))) }
{
    let Some(item) = item_of(value) else {
        return Err(Refusal::ModelShape { at: number });
    };
    let Some(kind) = kind_named(repertoire, item.template) else {
        return Err(Refusal::UnknownTemplate { at: number });
    };
    let Some((first, second)) = activities_in(kind, item.parameters) else {
        return Err(Refusal::Parameters { at: number });
    };
    if is_twice(kind, first, second) {
        return Err(Refusal::SameParameter { at: number });
    }
    let first = names.add(first)?;
    let second = names.add(second)?;
    Ok(Constraint {
        kind,
        first,
        second,
    })
}

/// The template of the repertoire with this name.
fn kind_named(repertoire: Repertoire, text: &str) -> Option<Kind>
    ensures kind { result ≡ kind_named repertoire text.now }
    ensures known { IfSome result IsTemplate }
{
    let Some(kind) = kind_of(text) else {
        return None;
    };
    if is_of(repertoire, kind) {
        Some(kind)
    } else {
        None
    }
}

/// Whether a template of two activities is given one name for both.
fn is_twice(kind: Kind, first: &str, second: &str) -> bool
    requires { IsTemplate kind }
    ensures { result ≡ is_twice (activities kind first.now second.now) }
{
    arity(kind) == 2 && first == second
}

/// The parts of an item that has the shape of a constraint.
fn item_of(value: &Value) -> Option<Item<'_>>
    ensures some { IfSome result (λ item. (parameters : List (List (List ℕ))) × (each texts_in (map view item.parameters.now) ≡ Some parameters)
        × (item_of (view value.now) ≡ Some (record { template = item.template.now; parameters = parameters }))) }
    ensures none { IfNone result (item_of (view value.now) ≡ None) }
{
    let template = value.get("template")?.as_str()?;
    let parameters = value.get("parameters")?.as_array()?.as_slice();
    if are_lists_of_texts(parameters) {
        Some(Item {
            template,
            parameters,
        })
    } else {
        None
    }
}

fn are_lists_of_texts(list: &[Value]) -> bool
    ensures { result ≡ list_all (λ element. is_some (texts_in (view element))) list.now }
{
    list.iter().all(|element| texts_in(element).is_some())
}

/// The names that are put in, as many as the template has activities; of one activity it stands twice.
fn activities_in(kind: Kind, parameters: &[Value]) -> Option<(&str, &str)>
    requires { IsTemplate kind }
    ensures some { IfSome result (λ named. option_and_then (activities_in kind) (each texts_in (map view parameters.now))
        ≡ Some (activities kind named.0.now named.1.now)) }
    ensures one { IfSome result (λ named. arity kind ≡ 1 → named.1.now ≡ named.0.now) }
    ensures none { IfNone result (option_and_then (activities_in kind) (each texts_in (map view parameters.now)) ≡ None) }
{
    if parameters.len() != arity(kind) as usize {
        return None;
    }
    let first = only(parameters.first()?)?;
    match parameters.get(1) {
        Some(parameter) => Some((first, only(parameter)?)),
        None => Some((first, first)),
    }
}

/// The text of a list that has one text and nothing else.
fn only(parameter: &Value) -> Option<&str>
    ensures { option_map (λ text. text.now) result ≡ option_and_then only (texts_in (view parameter.now)) }
{
    let list = parameter.as_array()?.as_slice();
    if list.len() == 1 {
        list[0].as_str()
    } else {
        None
    }
}
