//! What is still to be written on a page. It nests on the heap, so that a text may have any number of levels.
ghost use Rattle.std.specs.Prelude.{◌≡◌, ◌∷◌, ◌++◌, ◌≤◌, ◌+◌, [], IfOk, MatchOption, OnOk, drop, length, map};
ghost use Rattle.tw_terms.specs.View.{args_of, type_of};
ghost use Rattle.tw_print.specs.Arguments as counts;
ghost use Rattle.tw_print.specs.ArgumentView.{argument_of};
ghost use Rattle.tw_print.specs.Due.{Puts, PutsSpaced, PutsType, stacked};
ghost use Rattle.tw_print.specs.SceneView.{scene_in};
ghost use Rattle.tw_print.specs.Shown as layout;

use crate::arguments::Argument;
use crate::heads::{is_bare, is_operation, operand_count};
use crate::marks::quantifier_marks;
use crate::scene::Scene;
use std::alloc::{AllocError, Global};
use tw_fixity::{Fix, Name};
use tw_terms::{Term, Ty};

/// What is due: a part of the text, or a change of the variables in scope.
#[derive(Drop)]
pub enum Due {
    /// A word.
    Word(Vec<u8>),
    /// An opening parenthesis.
    Opening,
    /// A closing parenthesis.
    Closing,
    /// A space.
    Space,
    /// An arrow between spaces.
    Arrow,
    /// A closing bracket and a space.
    Bracket,
    /// A closing brace and a space.
    Brace,
    /// A term, at its type where it is a lambda, and how deep its parts may nest.
    Term(Term, Option<Ty>, u64),
    /// A type, the marks of its quantifiers, the last one first, and how deep its parts may nest.
    Type(Ty, Vec<bool>, u64),
    /// A variable of this type comes in scope, with its name.
    Enter(Ty, Option<Name>),
    /// The newest variable leaves the scope.
    Leave,
}

/// One thing more is due, before the others.
pub fn push(due: &mut Vec<Due>, next: Due) -> Result<(), AllocError>
    ensures { OnOk result (stacked due.new.items ≡ next ∷ stacked due.old.items) }
{
    due.push(next)?;
    Ok(())
}

/// What is due next is taken off.
pub fn pop(due: &mut Vec<Due>) -> Option<Due>
    ensures { MatchOption result (stacked due.old.items ≡ []) (λ d. stacked due.old.items ≡ d ∷ stacked due.new.items) }
{
    due.pop()
}

/// A type is due. One pass through it finds the marks of its quantifiers.
pub fn push_type(alloc: Global, due: &mut Vec<Due>, ty: Ty, inner: u64) -> Result<(), AllocError>
    ensures { OnOk result (PutsType inner (type_of ty) (stacked due.old.items) (stacked due.new.items)) }
{
    let mut marks = quantifier_marks(alloc, &ty)?;
    marks.reverse();
    push(due, Due::Type(ty, marks, inner))
}

/// An operand is due, in parentheses where it is a lambda or an application of an operator.
#[inline(never)]
fn push_operand(
    scene: &Scene,
    due: &mut Vec<Due>,
    argument: Argument,
    inner: u64,
) -> Result<(), AllocError>
    ensures { OnOk result (Puts (scene_in scene.now) (argument_of argument ∷ []) (λ G ns. layout.operand (layout.parts (scene_in scene.now) inner) (scene_in scene.now) G ns (argument_of argument)) (stacked due.old.items) (stacked due.new.items)) }
{
    if !is_operation(scene, &argument.term) {
        return push(due, Due::Term(argument.term, argument.ty, inner));
    }
    push(due, Due::Closing)?;
    push(due, Due::Term(argument.term, argument.ty, inner))?;
    push(due, Due::Opening)
}

/// An argument is due, in parentheses unless it is a head without shown arguments.
#[inline(never)]
fn push_argument(
    scene: &Scene,
    due: &mut Vec<Due>,
    argument: Argument,
    inner: u64,
) -> Result<(), AllocError>
    ensures { OnOk result (Puts (scene_in scene.now) (argument_of argument ∷ []) (λ G ns. layout.argument (layout.parts (scene_in scene.now) inner) (scene_in scene.now) G ns (argument_of argument)) (stacked due.old.items) (stacked due.new.items)) }
{
    if is_bare(scene, &argument.term) {
        return push(due, Due::Term(argument.term, argument.ty, inner));
    }
    push(due, Due::Closing)?;
    push(due, Due::Term(argument.term, argument.ty, inner))?;
    push(due, Due::Opening)
}

/// The arguments behind the first `keep` are due, each after one space, and are taken off.
#[inline(never)]
fn push_spaced(
    scene: &Scene,
    due: &mut Vec<Due>,
    arguments: &mut Vec<Argument>,
    keep: usize,
    inner: u64,
) -> Result<(), AllocError>
    ensures puts { OnOk result (PutsSpaced (scene_in scene.now) inner keep arguments.old.items arguments.new.items (stacked due.old.items) (stacked due.new.items)) }
    ensures most { OnOk result (length arguments.new.items ≤ keep) }
{
    while arguments.len() > keep {
        match arguments.pop() {
            Some(argument) => {
                push_argument(scene, due, argument, inner)?;
                push(due, Due::Space)?;
            }
            None => return Ok(()),
        }
    }
    Ok(())
}

/// Terms that need no types are due, but for the first `hidden`, each after one space.
#[inline(never)]
pub fn push_bare(
    scene: &Scene,
    due: &mut Vec<Due>,
    terms: Vec<Term>,
    hidden: usize,
    inner: u64,
) -> Result<(), AllocError>
    ensures { OnOk result (Puts (scene_in scene.now) (drop hidden (counts.bare_arguments (args_of terms.items))) (λ G ns. layout.spaced (layout.parts (scene_in scene.now) inner) (scene_in scene.now) G ns (drop hidden (counts.bare_arguments (args_of terms.items)))) (stacked due.old.items) (stacked due.new.items)) }
{
    let mut left = terms;
    while left.len() > hidden {
        match left.pop() {
            Some(term) => {
                push_argument(scene, due, Argument { term, ty: None }, inner)?;
                push(due, Due::Space)?;
            }
            None => return Ok(()),
        }
    }
    Ok(())
}

/// The last argument is taken off.
fn pop_argument(arguments: &mut Vec<Argument>) -> Argument
    requires { 1 ≤ length arguments.old.items }
    ensures { arguments.old.items ≡ arguments.new.items ++ (result ∷ []) }
{
    match arguments.pop() {
        Some(argument) => argument,
        None => unreachable!(),
    }
}

/// An operator with its operands is due. They are the last arguments, and `hidden` others stand before them.
#[inline(never)]
fn push_operation(
    scene: &Scene,
    due: &mut Vec<Due>,
    word: Vec<u8>,
    fix: Fix,
    arguments: Vec<Argument>,
    hidden: usize,
    inner: u64,
) -> Result<(), AllocError>
    requires { length arguments.items ≡ hidden + layout.operand_count fix }
    ensures { OnOk result (Puts (scene_in scene.now) (map argument_of (drop hidden arguments.items)) (λ G ns. layout.operation (layout.parts (scene_in scene.now) inner) (scene_in scene.now) G ns word.items fix (map argument_of (drop hidden arguments.items))) (stacked due.old.items) (stacked due.new.items)) }
{
    let mut left = arguments;
    match fix {
        Fix::Infix(_, _) => {
            let right = pop_argument(&mut left);
            push_operand(scene, due, right, inner)?;
            push(due, Due::Space)?;
            push(due, Due::Word(word))?;
            push(due, Due::Space)?;
            let first = pop_argument(&mut left);
            push_operand(scene, due, first, inner)
        }
        Fix::Prefix(_) => {
            let only = pop_argument(&mut left);
            push_operand(scene, due, only, inner)?;
            push(due, Due::Space)?;
            push(due, Due::Word(word))
        }
        Fix::Postfix(_) => {
            push(due, Due::Word(word))?;
            push(due, Due::Space)?;
            let only = pop_argument(&mut left);
            push_operand(scene, due, only, inner)
        }
    }
}

/// A word with its shown arguments is due, as an operator where it is one and has enough of them. The first `hidden` arguments are not shown.
#[inline(never)]
pub fn push_application(
    scene: &Scene,
    due: &mut Vec<Due>,
    word: Vec<u8>,
    operator: Option<Fix>,
    arguments: Vec<Argument>,
    hidden: usize,
    inner: u64,
) -> Result<(), AllocError>
    ensures { OnOk result (Puts (scene_in scene.now) (drop hidden (map argument_of arguments.items)) (λ G ns. layout.application (layout.parts (scene_in scene.now) inner) (scene_in scene.now) G ns word.items operator (drop hidden (map argument_of arguments.items))) (stacked due.old.items) (stacked due.new.items)) }
{
    let Some(fix) = operator else {
        return push_plain(scene, due, word, arguments, hidden, inner);
    };
    let least = least_of(fix, hidden)?;
    if arguments.len() < least {
        return push_plain(scene, due, word, arguments, hidden, inner);
    }
    if arguments.len() == least {
        return push_operation(scene, due, word, fix, arguments, hidden, inner);
    }
    let mut left = arguments;
    push_spaced(scene, due, &mut left, least, inner)?;
    push(due, Due::Closing)?;
    push_operation(scene, due, word, fix, left, hidden, inner)?;
    push(due, Due::Opening)
}

/// How many arguments an operator needs, the hidden ones among them. Fails where no spine in memory has so many.
fn least_of(fix: Fix, hidden: usize) -> Result<usize, AllocError>
    ensures { IfOk result (λ n. n ≡ layout.operand_count fix + hidden) }
{
    operand_count(fix).checked_add(hidden).ok_or(AllocError)
}

/// A word is due, and its shown arguments behind it.
fn push_plain(
    scene: &Scene,
    due: &mut Vec<Due>,
    word: Vec<u8>,
    arguments: Vec<Argument>,
    hidden: usize,
    inner: u64,
) -> Result<(), AllocError>
    ensures { OnOk result (Puts (scene_in scene.now) (drop hidden (map argument_of arguments.items)) (λ G ns. layout.plain_application (layout.parts (scene_in scene.now) inner) (scene_in scene.now) G ns word.items (drop hidden (map argument_of arguments.items))) (stacked due.old.items) (stacked due.new.items)) }
{
    let mut left = arguments;
    push_spaced(scene, due, &mut left, hidden, inner)?;
    push(due, Due::Word(word))
}
