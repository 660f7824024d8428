// What becomes of the attributes of each action.
ghost use Rattle.std.specs.Prelude.{◌≡◌, Some};
ghost use Rattle.code_actions.specs.Evaluations.{coercions};
ghost use Rattle.code_expressions.specs.Values.{coercion_of};
ghost use Rattle.page_meaning.specs.Attributes.{coercion_in};
ghost use Rattle.page_meaning.specs.Coercions.{out_coercions, set_coercions, test_coercions};
ghost use Rattle.page_meaning.specs.Coercions.{each_coercions, token_coercions, url_coercions};
ghost use Rattle.page_meaning.specs.Coercions.{param_coercions, page_coercions};
ghost use Rattle.page_meaning.specs.Tags.{tag_coercion, type_coercion};
ghost use Rattle.tag_decl.specs.Declare.{declared};

use code_expressions::Evaluation;
use page_code::Coercion;
use tag_decl::{AttrDecl, AttrDecls, AttrKind, declared};

/// The kinds of actions, by what becomes of the values of their attributes.
#[derive(Clone, Copy)]
pub enum Evaluations<'u> {
    /// `c:out`.
    Out,
    /// `c:set`.
    Set,
    /// `c:if` and `c:when`.
    Test,
    /// `c:forEach`.
    Each,
    /// `c:forTokens`.
    Tokens,
    /// `c:import`, `c:url` and `c:redirect`.
    Url,
    /// `c:param` and `jsp:param`.
    Param,
    /// `jsp:include` and `jsp:forward`.
    Page,
    /// An action that takes values as they are.
    AsTheyAre,
    /// The call of a tag file that declares these attributes.
    Declared(&'u AttrDecls),
}

impl<'u> Evaluations<'u> {
    /// What becomes of the attribute of this name.
    pub fn of(&self, name: &str) -> Evaluation
        ensures { coercion_of result ≡ coercions self.now name.now }
    {
        match self {
            Evaluations::Out => of_out(name),
            Evaluations::Set => of_set(name),
            Evaluations::Test => of_test(name),
            Evaluations::Each => of_each(name),
            Evaluations::Tokens => of_tokens(name),
            Evaluations::Url => of_url(name),
            Evaluations::Param => of_param(name),
            Evaluations::Page => of_page(name),
            Evaluations::AsTheyAre => Evaluation::AsItIs,
            Evaluations::Declared(decls) => of_declared(decls, name),
        }
    }
}

fn of_out(name: &str) -> Evaluation
    ensures { coercion_of result ≡ coercion_in out_coercions name.now }
{
    match name {
        "value" => Evaluation::To(Coercion::TextOrNull),
        "default" => Evaluation::To(Coercion::Text),
        "escapeXml" => Evaluation::To(Coercion::Truth),
        _ => Evaluation::AsItIs,
    }
}

fn of_set(name: &str) -> Evaluation
    ensures { coercion_of result ≡ coercion_in set_coercions name.now }
{
    match name {
        "property" => Evaluation::To(Coercion::Text),
        _ => Evaluation::AsItIs,
    }
}

fn of_test(name: &str) -> Evaluation
    ensures { coercion_of result ≡ coercion_in test_coercions name.now }
{
    match name {
        "test" => Evaluation::To(Coercion::Truth),
        _ => Evaluation::AsItIs,
    }
}

fn of_each(name: &str) -> Evaluation
    ensures { coercion_of result ≡ coercion_in each_coercions name.now }
{
    match name {
        "begin" => Evaluation::To(Coercion::Number),
        "end" => Evaluation::To(Coercion::Number),
        "step" => Evaluation::To(Coercion::Number),
        _ => Evaluation::AsItIs,
    }
}

fn of_tokens(name: &str) -> Evaluation
    ensures { coercion_of result ≡ coercion_in token_coercions name.now }
{
    match name {
        "items" => Evaluation::To(Coercion::Text),
        "delims" => Evaluation::To(Coercion::Text),
        other => of_each(other),
    }
}

fn of_url(name: &str) -> Evaluation
    ensures { coercion_of result ≡ coercion_in url_coercions name.now }
{
    match name {
        "url" => Evaluation::To(Coercion::Text),
        "value" => Evaluation::To(Coercion::Text),
        _ => Evaluation::AsItIs,
    }
}

fn of_param(name: &str) -> Evaluation
    ensures { coercion_of result ≡ coercion_in param_coercions name.now }
{
    match name {
        "name" => Evaluation::To(Coercion::Text),
        "value" => Evaluation::To(Coercion::Text),
        _ => Evaluation::AsItIs,
    }
}

fn of_page(name: &str) -> Evaluation
    ensures { coercion_of result ≡ coercion_in page_coercions name.now }
{
    match name {
        "page" => Evaluation::To(Coercion::Text),
        _ => Evaluation::AsItIs,
    }
}

// What becomes of an attribute by its declaration; an undeclared one is taken as it is.
fn of_declared(decls: &AttrDecls, name: &str) -> Evaluation
    ensures { coercion_of result ≡ tag_coercion (declared name.now decls.now) }
{
    match declared(decls, name) {
        None => Evaluation::AsItIs,
        Some(decl) => of_declaration(decl),
    }
}

// What becomes of an attribute that is declared so.
fn of_declaration(decl: &AttrDecl) -> Evaluation
    ensures { coercion_of result ≡ tag_coercion (Some decl.now) }
{
    if decl.fragment {
        Evaluation::Unevaluated
    } else {
        of_kind(decl.kind)
    }
}

// What a declared type asks of a value.
fn of_kind(kind: AttrKind) -> Evaluation
    ensures { coercion_of result ≡ type_coercion kind }
{
    match kind {
        AttrKind::Text => Evaluation::To(Coercion::Text),
        AttrKind::Number => Evaluation::To(Coercion::NumberOrNull),
        AttrKind::Truth => Evaluation::To(Coercion::TruthOrNull),
        AttrKind::Any => Evaluation::AsItIs,
    }
}
