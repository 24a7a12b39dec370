ghost use Rattle.std.specs.Prelude.{◌≡◌, ◌↔◌, ℕ, List, IfOk, IfErr, map, nat_eq};
ghost use Rattle.regex_forms.specs.Forms.{tree_of};
ghost use Rattle.regex_forms.specs.Matching.{Matches};
ghost use Rattle.regex_forms.specs.Printing.{text};
ghost use Rattle.regex_forms.specs.Texts.{text_of};
ghost use Rattle.regex_forms.specs.Trees.{view};
ghost use Rattle.template_core.specs.Constraints.{IsWellMade};
ghost use Rattle.template_core.specs.Repertoire.{Keeps};
ghost use Rattle.template_core.specs.Tables.{class};
ghost use Rattle.template_core.specs.declared.constraint.Constraint.{Constraint};

use crate::{Form, counted, existence, mutual, negative, relation};
use decl_base::Refusal;
use std::alloc::{AllocError, Global};
use template_core::Kind;

/// The form of the template. It matches the classes of a trace exactly where the trace keeps a constraint of the template.
/// `Memory` is the only refusal.
pub fn form_of(alloc: Global, kind: Kind) -> Result<Form, Refusal>
    ensures tree { IfOk result (λ form. view form ≡ tree_of kind) }
    ensures text { IfOk result (λ form. text (view form) ≡ text_of kind) }
    ensures keeps { IfOk result (λ form. (c : Constraint) (trace : List ℕ) → c.kind ≡ kind → IsWellMade kind c.first c.second
        → Matches (view form) (map (class c) trace) ↔ Keeps nat_eq kind c.first c.second trace) }
    ensures err { IfErr result (λ e. e ≡ Refusal.Memory) }
{
    Ok(made(alloc, kind)?)
}

fn made(alloc: Global, kind: Kind) -> Result<Form, AllocError>
    ensures { IfOk result (λ form. view form ≡ tree_of kind) }
{
    match kind {
        Kind::Init => existence::init(alloc),
        Kind::End => existence::end(alloc),
        Kind::Participation => existence::participation(alloc),
        Kind::AtMostOne => existence::at_most_one(alloc),
        Kind::ChainSuccession => mutual::chain_succession(alloc),
        Kind::AlternateSuccession => mutual::alternate_succession(alloc),
        Kind::Succession => mutual::succession(alloc),
        Kind::CoExistence => mutual::co_existence(alloc),
        Kind::ChainResponse => relation::chain_response(alloc),
        Kind::AlternateResponse => relation::alternate_response(alloc),
        Kind::Response => relation::response(alloc),
        Kind::ChainPrecedence => relation::chain_precedence(alloc),
        Kind::AlternatePrecedence => relation::alternate_precedence(alloc),
        Kind::Precedence => relation::precedence(alloc),
        Kind::RespondedExistence => relation::responded_existence(alloc),
        Kind::NotCoExistence | Kind::NotRespondedExistence => negative::not_co_existence(alloc),
        Kind::NotSuccession | Kind::NotResponse | Kind::NotPrecedence => negative::not_succession(
            alloc,
        ),
        Kind::Exactly { n } => counted::exactly(alloc, n),
        Kind::AtLeast { n } => counted::at_least(alloc, n),
        Kind::AtMost { n } => counted::at_most(alloc, n),
        Kind::NotChainSuccession | Kind::NotChainResponse | Kind::NotChainPrecedence =>
            negative::not_chain_succession(alloc),
    }
}
