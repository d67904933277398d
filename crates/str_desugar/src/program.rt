//! From a checked file to its core program.
ghost use Rattle.std.specs.Prelude.{◌≡◌, IfOk, map};
ghost use Rattle.core_lang.specs.Core.{program_of};
ghost use Rattle.core_lang.specs.Named.{written};
ghost use Rattle.core_lang.specs.Resolution.{ResolvesProgram};
ghost use Rattle.core_lang.specs.Views as views;
ghost use Rattle.signature_core.specs.Signature.{arity_known};
ghost use Rattle.str_syntax.specs.Views.{file_of, form_of, strategy_of};
ghost use Rattle.str_desugar.specs.Alternatives.{definitions_of_all};
ghost use Rattle.str_desugar.specs.Equations.{forms_among, scoped, strategy_core, top_core};
ghost use Rattle.str_desugar.specs.FileProgram.{program_of_file};
ghost use Rattle.str_desugar.specs.Forms.{read_forms, tops_at};
ghost use Rattle.str_desugar.specs.Frames.{definitions_at, of_names, outermost, strategy_at};
ghost use Rattle.str_desugar.specs.Groups.{bodies_at, body_among, head_in, within};
ghost use Rattle.str_desugar.specs.Layers.{layers_of};
ghost use Rattle.str_desugar.specs.Results.{ReturnsCore};

use crate::alternatives::Groups;
use crate::assembly::scope_of;
use crate::forms::{forms_in, groups_of, head_of};
use crate::items::put;
use crate::names::{Names, names_in};
use crate::rules::scoped_rule;
use crate::scopes::Scopes;
use crate::strategy::{Context, strategy};
use crate::symbols::Symbols;
use crate::variables::{free_of_rule, free_of_strategy};
use core_lang::{Core, CoreDef, CoreStrategy};
use keyed_hash::HashKeys;
use scope_check::Checked;
use std::alloc::{AllocError, Global};
use str_syntax::{DefinitionForm, DefinitionKey, Name, Strategy};

/// Reduces a checked file to its core program, in which each identifier is resolved. `AllocError` where the memory for it is refused. The
/// tables of names hash with the keys, and nothing else depends on them.
pub fn to_core(alloc: Global, hashing: HashKeys, checked: &Checked) -> Result<Core, AllocError>
    ensures { IfOk result (λ core. ResolvesProgram (program_of_file (file_of checked.now.file))
        (written checked.now.main) (program_of core) core.main) }
{
    let forms = forms_in(alloc, checked.file())?;
    core_of(alloc, hashing, checked, &forms)
}

/// Returns the bytes at which the names of alternatives stand in the file: for each definition of the core program, in its order, those of its
/// alternatives in the order in which they are tried. Names of the library stand at 0. No contract speaks of them. `AllocError` where the memory
/// for them is refused.
pub fn alternative_heads(
    alloc: Global,
    hashing: HashKeys,
    checked: &Checked,
) -> Result<Vec<Vec<u64>>, AllocError> {
    let forms = forms_in(alloc, checked.file())?;
    let groups = groups_of(alloc, hashing, &forms)?;
    groups.all_offsets(alloc)
}

/// The core program of a checked file, whose rules and definitions are these.
fn core_of(
    alloc: Global,
    hashing: HashKeys,
    checked: &Checked,
    forms: &[&DefinitionForm],
) -> Result<Core, AllocError>
    requires { read_forms forms.now ≡ forms_among (file_of checked.now.file).sections }
    ensures { IfOk result (λ core. ResolvesProgram (program_of_file (file_of checked.now.file))
        (written checked.now.main) (program_of core) core.main) }
{
    let groups = groups_of(alloc, hashing, forms)?;
    let core = core_among(alloc, hashing, checked, forms, &groups)?;
    let heads = groups.offsets(alloc)?;
    Ok(core.with_heads(heads))
}

/// The core program, whose rules and definitions have these heads.
fn core_among<'t>(
    alloc: Global,
    hashing: HashKeys,
    checked: &Checked,
    forms: &[&'t DefinitionForm],
    groups: &Groups<'t>,
) -> Result<Core, AllocError>
    requires forms { read_forms forms.now ≡ forms_among (file_of checked.now.file).sections }
    requires heads { groups.now ≡
        map head_in (tops_at (arity_known checked.now.declarations) (read_forms forms.now)) }
    ensures { IfOk result (λ core. ResolvesProgram (program_of_file (file_of checked.now.file))
        (written checked.now.main) (program_of core) core.main) }
{
    let context = Context {
        alloc,
        signature: checked.signature(),
        hashing,
        place: 0,
    };
    let key = DefinitionKey::plain(checked.main());
    let found = groups.keys().position_of(&key);
    let main = found.unwrap();
    let defs = definitions(&context, forms, groups)?;
    let core = Core::new(context.alloc, defs, main)?;
    Ok(core)
}

/// The definitions of these groups, in the layer that has their keys.
fn definitions<'t>(
    context: &Context,
    forms: &[&'t DefinitionForm],
    groups: &Groups<'t>,
) -> Result<Vec<CoreDef>, AllocError>
    requires { groups.now ≡
        map head_in (tops_at (arity_known context.now.signature.now) (read_forms forms.now)) }
    ensures { IfOk result (λ made. views.definitions_of made.items ≡
        definitions_at (within (tops_at (arity_known context.now.signature.now)
        (read_forms forms.now)) outermost)
        (definitions_of_all (tops_at (arity_known context.now.signature.now)
        (read_forms forms.now)))) }
{
    let outer = Scopes::Outermost;
    let scopes = Scopes::Defined {
        keys: groups.keys(),
        outer: &outer,
    };
    let mut symbols = Symbols::new(context.alloc, context.hashing);
    let each = bodies(context, forms, groups, &scopes, &mut symbols)?;
    let made = groups.join(context.alloc, each)?;
    Ok(made)
}

/// The bodies of the rules and definitions, each with the parameters of the first of its group.
fn bodies<'t>(
    context: &Context,
    forms: &[&'t DefinitionForm],
    groups: &Groups<'t>,
    scopes: &Scopes<'_, 't>,
    symbols: &mut Symbols,
) -> Result<Vec<CoreStrategy>, AllocError>
    requires { groups.now ≡ map head_in
        (tops_at (arity_known context.now.signature.now) (read_forms forms.now)) }
    ensures { IfOk result (λ made. map views.strategy_of made.items ≡
        bodies_at (layers_of scopes.now)
        (tops_at (arity_known context.now.signature.now) (read_forms forms.now))) }
{
    let mut made = Vec::with_capacity(context.alloc, forms.len())?;
    for form in forms {
        let body = alternative(context, form, groups, scopes, symbols)?;
        put(body, &mut made)?;
    }
    Ok(made)
}

/// The body of a rule or a definition, with the parameters of the first of its group.
fn alternative<'t>(
    context: &Context,
    form: &'t DefinitionForm,
    groups: &Groups<'t>,
    scopes: &Scopes<'_, 't>,
    symbols: &mut Symbols,
) -> Result<Box<CoreStrategy>, AllocError>
    ensures { ReturnsCore result (body_among (layers_of scopes.now)
        groups.now (top_core (arity_known context.now.signature.now) (form_of form.now))) }
{
    let first = groups.first_of(head_of(form));
    let strategies = names_in(
        context.alloc,
        context.hashing,
        first.parameters.strategy_names(),
    )?;
    let terms = first.parameters.term_names();
    let inner = Context {
        place: head_of(form).name.offset(),
        ..*context
    };
    let made = under_parameters(&inner, form, &strategies, terms, scopes, symbols)?;
    Ok(made)
}

/// The body under these parameters.
fn under_parameters<'t>(
    context: &Context,
    form: &'t DefinitionForm,
    strategies: &Names,
    terms: &[Name],
    scopes: &Scopes<'_, 't>,
    symbols: &mut Symbols,
) -> Result<Box<CoreStrategy>, AllocError>
    ensures { ReturnsCore result (strategy_at (of_names (map written strategies.now)
        (map written terms.now)
        (layers_of scopes.now))
        (top_core (arity_known context.now.signature.now) (form_of form.now)).body) }
{
    let terms = names_in(context.alloc, context.hashing, terms)?;
    let inner = Scopes::Parameters {
        strategies: &*strategies,
        terms: &terms,
        outer: &*scopes,
    };
    let made = body(context, form, &inner, symbols)?;
    Ok(made)
}

/// The body in a scope of its variables but its term parameters.
fn body<'t>(
    context: &Context,
    form: &'t DefinitionForm,
    scopes: &Scopes<'_, 't>,
    symbols: &mut Symbols,
) -> Result<Box<CoreStrategy>, AllocError>
    ensures { ReturnsCore result (strategy_at (layers_of scopes.now)
        (top_core (arity_known context.now.signature.now) (form_of form.now)).body) }
{
    match form {
        DefinitionForm::Rule(source) => {
            let terms = source.head.parameters.term_names();
            let names = free_of_rule(context.alloc, context.hashing, &source.rule, terms)?;
            scoped_rule(context, &names, &source.rule, scopes, symbols)
        }
        DefinitionForm::Strategy(source) => {
            let terms = source.head.parameters.term_names();
            let names = free_of_strategy(context.alloc, context.hashing, &source.body, terms)?;
            scoped_strategy(context, &names, &source.body, scopes, symbols)
        }
    }
}

/// The core of a strategy in a scope of these variables, if there are any.
fn scoped_strategy<'t>(
    context: &Context,
    names: &Names,
    source: &'t Strategy,
    scopes: &Scopes<'_, 't>,
    symbols: &mut Symbols,
) -> Result<Box<CoreStrategy>, AllocError>
    ensures { ReturnsCore result (strategy_at (layers_of scopes.now)
        (scoped names.now (strategy_core (arity_known context.now.signature.now)
        (strategy_of source.now)))) }
{
    let count = names.len();
    if count == 0 {
        let only = strategy(context, source, scopes, symbols)?;
        return Ok(only);
    }
    let inner = Scopes::Variables {
        names: &*names,
        outer: &*scopes,
    };
    let body = strategy(context, source, &inner, symbols)?;
    scope_of(context.alloc, count, body)
}
