//! The parameters and the formals of a macro at a use.

ghost use Rattle.std.specs.Prelude.{◌≡◌, ◌==◌, ◌&&◌, map, IfOk};
ghost use Rattle.drawing_tree.specs.Tree.{assignment_of, formal_of, macro_of, use_of};
ghost use Rattle.macro_expander.specs.Primitives.{are_of};
ghost use Rattle.macro_expander.specs.Macros.{value_given as spec_value_given, value_or_default as spec_value_or_default, parameter as spec_parameter, parameters_of, shape_of, shapes_of, has_parameter, fits_formals as spec_fits_formals, given_to as spec_given_to, inside_of as spec_inside_of};
ghost use Rattle.macro_expander.specs.Places.{LeadWhereMany, assigned_name, binding_name};
ghost use Rattle.macro_expander.specs.Steps.{JudgedAt};

use crate::parameter::{comes_again, values_given};
use crate::places::{Called, FEW, led, named, places};
use crate::primitive::marks;
use crate::range::{at, numbers, value, written_ends};
use crate::turn::add_bindings;
use drawing_tree::{Assign, Assigns, Binding, Defaults, Env, Formal, Formals, MacroDef, UseStmt};
use indexmap::IndexMap;
use scald_base::{Bytes, List, NoMemory, Place, RefusalKind, Stop};
use std::alloc::Global;
use vector_names::Indices;

/// A formal with the numbers of its bits.
#[derive(Drop, Debug)]
pub struct Shape {
    /// Its name in the macro's body.
    pub base: Bytes,
    /// The numbers of its bits, in the order of its declaration.
    pub numbers: Indices,
}

/// What a macro's body is expanded with: the values of its parameters, and its formals.
#[derive(Drop, Debug)]
pub struct Inside {
    /// The parameters with their values, and after them the constants.
    pub env: Env,
    /// The formals of its inputs, in the order of its text.
    pub ins: List<Shape>,
    /// The formals of its outputs, in the order of its text.
    pub outs: List<Shape>,
}

/// The value that a use gives to a parameter, by the places of what it gives.
fn value_given(given: &Env, places: &IndexMap<Vec<u8>, usize>, name: &[u8]) -> Option<i64>
    requires { LeadWhereMany binding_name places.now.entries given.now }
    ensures { result ≡ spec_value_given given.now name.now }
{
    match named(places, given.as_slice(), name) {
        Some(binding) => Some(binding.value),
        None => None,
    }
}

fn value_or_default(
    consts: &Env,
    given: Option<i64>,
    param: &Assign,
    place: Place,
) -> Result<i64, Stop>
    ensures { JudgedAt place result
        (spec_value_or_default consts.now given (assignment_of param.now)) }
{
    match given {
        Some(value) => Ok(value),
        None => at(place, value(&param.value, consts)),
    }
}

fn parameter(
    alloc: Global,
    consts: &Env,
    given: &Env,
    places: &IndexMap<Vec<u8>, usize>,
    param: &Assign,
    place: Place,
) -> Result<Binding, Stop>
    requires { LeadWhereMany binding_name places.now.entries given.now }
    ensures { JudgedAt place result
        (spec_parameter consts.now given.now (assignment_of param.now)) }
{
    let written = value_given(given, places, param.name.as_slice());
    let value = value_or_default(consts, written, param, place)?;
    let name = Bytes::of(alloc, param.name.as_slice())?;
    Ok(Binding { name, value })
}

fn parameters_by(
    alloc: Global,
    consts: &Env,
    given: &Env,
    places: &IndexMap<Vec<u8>, usize>,
    params: &Defaults,
    place: Place,
) -> Result<Env, Stop>
    requires { LeadWhereMany binding_name places.now.entries given.now }
    ensures { JudgedAt place result
        (parameters_of consts.now given.now (map assignment_of params.now)) }
{
    // The constants are put behind them.
    let room = params.len().saturating_add(consts.len());
    let mut env = List::with_room(alloc, room)?;
    for param in params.as_slice() {
        env.push(parameter(alloc, consts, given, places, param, place)?)?;
    }
    Ok(env)
}

/// The parameters of a macro with their values, if a use gives these: a default names constants
/// alone. The first that has no value is refused at this place; `NoMemory` comes if memory runs
/// out.
pub fn parameters(
    alloc: Global,
    consts: &Env,
    given: &Env,
    params: &Defaults,
    place: Place,
) -> Result<Env, Stop>
    ensures { JudgedAt place result
        (parameters_of consts.now given.now (map assignment_of params.now)) }
{
    let places = places(alloc, given.as_slice())?;
    parameters_by(alloc, consts, given, &places, params, place)
}

fn shaped(alloc: Global, env: &Env, formal: &Formal, place: Place) -> Result<Shape, Stop>
    ensures { JudgedAt place result (shape_of env.now (formal_of formal.now)) }
{
    let ends = at(place, written_ends(&formal.range, env))?;
    let numbers = numbers(alloc, ends, place)?;
    let base = Bytes::of(alloc, formal.base.as_slice())?;
    Ok(Shape { base, numbers })
}

fn shapes(alloc: Global, env: &Env, formals: &Formals, place: Place) -> Result<List<Shape>, Stop>
    ensures { JudgedAt place result (shapes_of env.now (map formal_of formals.now)) }
{
    let mut shapes = List::with_room(alloc, formals.len())?;
    for formal in formals.as_slice() {
        shapes.push(shaped(alloc, env, formal, place)?)?;
    }
    Ok(shapes)
}

/// What a macro's body is expanded with if a use gives these values: the defaults of the
/// parameters that are not given, which name no parameter but may name constants, and then the
/// formals' ranges. The first of these that has no value, or is too wide, is refused at this place;
/// `NoMemory` comes if memory runs out.
#[tactic(auto, unfolding(crate::specs::Macros::inside_of))]
pub fn inside_of(
    alloc: Global,
    consts: &Env,
    definition: &MacroDef,
    given: &Env,
    place: Place,
) -> Result<Inside, Stop>
    ensures { JudgedAt place result
        (spec_inside_of consts.now (macro_of definition.now) given.now) }
{
    let mut env = parameters(alloc, consts, given, &definition.params, place)?;
    add_bindings(alloc, &mut env, consts.as_slice())?;
    let ins = shapes(alloc, &env, &definition.ins, place)?;
    let outs = shapes(alloc, &env, &definition.outs, place)?;
    Ok(Inside { env, ins, outs })
}

/// Whether each is a parameter of the macro and none comes twice, if they are few.
fn are_few_parameters(definition: &MacroDef, params: &Assigns) -> bool
    ensures { result ≡ are_of (has_parameter (macro_of definition.now))
        (map assignment_of params.now) }
{
    let params = params.as_slice();
    for i in 0..params.len() {
        let name = params[i].name.as_slice();
        if !comes_again(definition.params.as_slice(), name) || comes_again(&params[i + 1..], name) {
            return false;
        }
    }
    true
}

fn is_known(known: &IndexMap<Vec<u8>, usize>, definition: &MacroDef, name: &[u8]) -> bool
    requires { LeadWhereMany assigned_name known.now.entries definition.now.params }
    ensures { result ≡ has_parameter (macro_of definition.now) name.now }
{
    named(known, definition.params.as_slice(), name).is_some()
}

/// The same of many: each is looked up among the macro's and among those after it.
fn are_many_parameters(
    alloc: Global,
    definition: &MacroDef,
    params: &Assigns,
) -> Result<bool, NoMemory>
    ensures { IfOk result (λ are.
        are ≡ are_of (has_parameter (macro_of definition.now)) (map assignment_of params.now)) }
{
    let known = places(alloc, definition.params.as_slice())?;
    let params = params.as_slice();
    let mut behind: IndexMap<Vec<u8>, usize> = IndexMap::new(alloc);
    let mut place = params.len();
    while place > 0 {
        place -= 1;
        let name = params[place].name();
        if !is_known(&known, definition, name) {
            return Ok(false);
        }
        if led(&behind, params, name).is_some() {
            return Ok(false);
        }
        let key = Vec::from_slice(alloc, name)?;
        behind.insert(key, place)?;
    }
    Ok(true)
}

fn are_parameters(alloc: Global, definition: &MacroDef, params: &Assigns) -> Result<bool, NoMemory>
    ensures { IfOk result (λ are.
        are ≡ are_of (has_parameter (macro_of definition.now)) (map assignment_of params.now)) }
{
    if params.len() <= FEW {
        return Ok(are_few_parameters(definition, params));
    }
    are_many_parameters(alloc, definition, params)
}

fn fits_formals(definition: &MacroDef, statement: &UseStmt) -> bool
    ensures { result ≡ spec_fits_formals (macro_of definition.now) (use_of statement.now) }
{
    statement.ins.len() == definition.ins.len()
        && statement.outs.len() == definition.outs.len()
        && marks(&statement.ins) == 0
        && marks(&statement.outs) == 0
}

/// What a use gives to a macro's parameters, or its refusal: a delay, a parameter that is not the
/// macro's or comes twice, the first fault of an expression, or a wrong number of connections or a
/// mark. `NoMemory` comes if memory runs out.
#[tactic(auto, unfolding(crate::specs::Macros::given_to))]
pub fn given_to(
    alloc: Global,
    definition: &MacroDef,
    env: &Env,
    statement: &UseStmt,
) -> Result<Env, Stop>
    ensures { JudgedAt statement.now.place result
        (spec_given_to (macro_of definition.now) env.now (use_of statement.now)) }
{
    let place = statement.place;
    if statement.delay.is_some() {
        return Err(Stop::refused(RefusalKind::Bounds, place));
    }
    if !are_parameters(alloc, definition, &statement.params)? {
        return Err(Stop::refused(RefusalKind::BadParameter, place));
    }
    let given = values_given(alloc, &statement.params, env, place)?;
    if !fits_formals(definition, statement) {
        return Err(Stop::refused(RefusalKind::PinCount, place));
    }
    Ok(given)
}
