ghost use Rattle.std.specs.Prelude.{◌≡◌, ◌&&◌, map};
ghost use Rattle.el_reader.specs.El.{pair_of, tree_of};
ghost use Rattle.el_reader.specs.Tree.{trees_of, pairs_of};
ghost use Rattle.unit_words.specs.Kinds.{is_function_prefix};
ghost use Rattle.unit_words.specs.Values.{are_all_functions, are_functions, are_pairs_functions};
ghost use Rattle.unit_words.specs.Values.{how_many, is_function, takes_as_many};

use el_reader::El;
use page_directives::{Before, Target};
use pg_value::Function;

// Whether a prefix stands for the functions library.
fn is_function_prefix(before: &Before, prefix: &str) -> bool
    ensures { result ≡ is_function_prefix before.now.directives prefix.now }
{
    match before.target(prefix) {
        Some(Target::FunctionLibrary) => true,
        _ => false,
    }
}

// Whether a function has as many arguments.
fn takes_as_many(count: usize, function: Option<Function>) -> bool
    ensures { result ≡ takes_as_many count function }
{
    match function {
        Some(function) => function.arity() == count,
        None => false,
    }
}

// Whether a call is of a function of the library, with as many arguments as it has.
fn is_function(before: &Before, prefix: &str, name: &str, count: usize) -> bool
    ensures { result ≡ is_function (is_function_prefix before.now.directives) prefix.now name.now count }
{
    is_function_prefix(before, prefix) && takes_as_many(count, Function::of_name(name))
}

// Whether all calls in an expression are of functions of the library. It goes down the left sides
// in a loop: a long sum is as deep as it is long.
#[cycle(functions)]
#[tactic(auto, using(el_reader::proofs::Rows::rows))]
pub(crate) fn are_functions(before: &Before, el: &El) -> bool
    ensures { result ≡ are_functions (is_function_prefix before.now.directives) (tree_of el.now) }
{
    let mut part = el;
    'left: loop {
        match part {
            El::Literal(_) => return true,
            El::Name(_) => return true,
            El::Call { prefix, name, args } => {
                return is_call_of_functions(before, prefix.as_str(), name.as_str(), args);
            }
            El::List(items) => return are_all_functions(before, items),
            El::Map(pairs) => return are_pairs_functions(before, pairs),
            El::Unary(_, operand) => part = operand,
            El::Index(left, key) => {
                if !are_functions(before, key) {
                    return false;
                }
                part = left;
            }
            El::Binary(_, left, right) => {
                if !are_functions(before, right) {
                    return false;
                }
                part = left;
            }
            El::Choice(condition, one, other) => {
                if !are_functions(before, one) || !are_functions(before, other) {
                    return false;
                }
                part = condition;
            }
        }
    }
}

#[cycle(functions)]
#[tactic(auto, using(el_reader::proofs::Rows::rows))]
fn are_all_functions(before: &Before, items: &[El]) -> bool
    ensures { result ≡ are_all_functions (is_function_prefix before.now.directives)
        (trees_of (map tree_of items.now)) }
{
    for item in items {
        if !are_functions(before, item) {
            return false;
        }
    }
    true
}

#[cycle(functions)]
#[tactic(auto, using(el_reader::proofs::Rows::rows))]
fn are_pairs_functions(before: &Before, pairs: &[(El, El)]) -> bool
    ensures { result ≡ are_pairs_functions (is_function_prefix before.now.directives)
        (pairs_of (map pair_of pairs.now)) }
{
    for (key, value) in pairs {
        if !are_functions(before, key) || !are_functions(before, value) {
            return false;
        }
    }
    true
}

// Whether a call is of a function of the library, and all calls in its arguments are.
#[cycle(functions)]
#[tactic(auto, using(el_reader::proofs::Rows::rows, crate::proofs::FunctionLemmas::how_many_is))]
fn is_call_of_functions(before: &Before, prefix: &str, name: &str, args: &[El]) -> bool
    ensures { result ≡ (is_function (is_function_prefix before.now.directives) prefix.now name.now
        (how_many (trees_of (map tree_of args.now)))
        && are_all_functions (is_function_prefix before.now.directives) (trees_of (map tree_of args.now))) }
{
    is_function(before, prefix, name, args.len()) && are_all_functions(before, args)
}
