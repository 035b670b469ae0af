//! Why declarations are refused.
ghost use Rattle.std.specs.Prelude.{◌≡◌, ◌++◌, codes, decimal, IfOk};
ghost use Rattle.tw_decl.specs.Refusals.{count_words, fault_words, refusal_line, show_place, subgoal_words};
ghost use Rattle.tw_decl.specs.declared.refusal.Refusal.TheVariants.{Memory};

use std::alloc::{AllocError, AllocFailed, Global};
use tw_fixity::Name;
use tw_lexer::Place;

/// Why a declaration is refused, and where. Of several causes the first in this order is told, but that a definition or a lambda at
/// the level of types is told behind `Unknown`.
#[derive(Debug, Drop)]
pub enum Refusal {
    /// Memory is wanting.
    Memory,
    /// No token stands here.
    Lex(Place),
    /// The declaration has more than 65,536 tokens, and this is the first one too many.
    TooMany(Place),
    /// The declaration is of no form that is known; the place is that of its first token, whose text is shown. Or else a definition, or
    /// the lambda whose bracket stands here, is at the level of types, and `type` is shown.
    Unsupported(Place, Name),
    /// This bracket is nested too deep.
    Nesting(Place),
    /// No declaration begins with the tokens through this one, or it stands behind a declaration that should be alone.
    Syntax(Place),
    /// The sequence that begins here has no reading, or more than one.
    Fixity(Place),
    /// The arguments of a keyword break its rules.
    BadDecl(Place),
    /// This name is neither bound nor declared.
    Unknown(Place, Name),
    /// What isn't written is left open.
    Loose(Place),
    /// The declaration has no completion that is typed.
    Mismatch(Place),
    /// An equation is left, whose text is shown.
    Leftover(Place, Vec<u8>),
    /// A term deeper than 4,096 is met.
    TooDeep(Place),
    /// A family has no mode, where one is needed: `mode` and the family are shown.
    NotDeclared(Place, Vec<u8>),
    /// This clause isn't well-moded: the subgoal in solving order from 1, 0 being the head; the argument from 1, implicit ones
    /// counted, 0 being none of them.
    ModeFault(Place, Vec<u8>, u64, u64),
    /// This clause isn't well-worlded: the local context of this subgoal, in solving order from 1, is no sequence of instances of blocks, or its family doesn't know
    /// the blocks.
    WorldFault(Place, Vec<u8>, u64),
    /// This clause doesn't descend: the call is this subgoal, in solving order from 1.
    OrderFault(Place, Vec<u8>, u64),
    /// So many answers of a query were found, and so many there have to be.
    Count(Place, u64, u64),
    /// A search made so many tries, which is its budget, and one more is due.
    Budget(Place, u64),
    /// A search came to its end without an answer, and nothing was left over.
    NoAnswer(Place),
}

impl From<AllocError> for Refusal {
    ghost from_gives = { λ _ e. e ≡ Memory };

    fn from(_: AllocError) -> Self {
        Refusal::Memory
    }
}

impl<T: Drop> From<AllocFailed<T>> for Refusal {
    ghost from_gives = { λ _ e. e ≡ Memory };

    fn from(_: AllocFailed<T>) -> Self {
        Refusal::Memory
    }
}

/// The line of a refusal. The origin is the name of the file that the text came from, or `stdin`. Fails only for want of memory.
pub fn show_refusal(alloc: Global, refusal: &Refusal, origin: &str) -> Result<Vec<u8>, AllocError>
    ensures { IfOk result (λ line. line.items ≡ refusal_line origin.now refusal.now) }
{
    match refusal {
        Refusal::Memory => b"E0 Memory\n".to_vec(alloc),
        Refusal::Lex(place) => place_line(alloc, origin, place, b" E1 Lex\n"),
        Refusal::TooMany(place) => place_line(alloc, origin, place, b" E8 TooMany\n"),
        Refusal::Unsupported(place, shown) => {
            line_with(alloc, origin, place, b" E21 Unsupported ", shown.as_bytes())
        }
        Refusal::Nesting(place) => place_line(alloc, origin, place, b" E9 Nesting\n"),
        Refusal::Syntax(place) => place_line(alloc, origin, place, b" E2 Syntax\n"),
        Refusal::Fixity(place) => place_line(alloc, origin, place, b" E3 Fixity\n"),
        Refusal::BadDecl(place) => place_line(alloc, origin, place, b" E22 BadDecl\n"),
        Refusal::Unknown(place, name) => {
            line_with(alloc, origin, place, b" E4 Unknown ", name.as_bytes())
        }
        Refusal::Loose(place) => place_line(alloc, origin, place, b" E7 Loose\n"),
        Refusal::Mismatch(place) => place_line(alloc, origin, place, b" E5 Mismatch\n"),
        Refusal::Leftover(place, text) => {
            line_with(alloc, origin, place, b" E6 Leftover ", text)
        }
        Refusal::TooDeep(place) => place_line(alloc, origin, place, b" E10 TooDeep\n"),
        Refusal::NotDeclared(place, text) => {
            line_with(alloc, origin, place, b" E12 NotDeclared ", text)
        }
        Refusal::ModeFault(place, clause, subgoal, argument) => {
            clause_line(alloc, origin, place, clause, *subgoal, *argument)
        }
        Refusal::WorldFault(place, clause, subgoal) => {
            subgoal_line(alloc, origin, place, b" E14 WorldFault ", clause, *subgoal)
        }
        Refusal::OrderFault(place, clause, subgoal) => {
            subgoal_line(alloc, origin, place, b" E15 OrderFault ", clause, *subgoal)
        }
        Refusal::Count(place, found, expected) => {
            count_line(alloc, origin, place, *found, *expected)
        }
        Refusal::Budget(place, tries) => budget_line(alloc, origin, place, *tries),
        Refusal::NoAnswer(place) => place_line(alloc, origin, place, b" E23 NoAnswer\n"),
    }
}

// A line that begins with a place.
fn place_line(
    alloc: Global,
    origin: &str,
    place: &Place,
    rest: &[u8],
) -> Result<Vec<u8>, AllocError>
    ensures { IfOk result (λ line. line.items ≡ show_place origin.now place.now ++ rest.now) }
{
    let shown = format!(in alloc; "{origin}:{}:{}", place.line, place.column)?;
    let mut line = shown.into_bytes();
    line.extend_from_slice(rest)?;
    Ok(line)
}

// A line that ends with what it shows.
fn line_with(
    alloc: Global,
    origin: &str,
    place: &Place,
    words: &[u8],
    shown: &[u8],
) -> Result<Vec<u8>, AllocError>
    ensures { IfOk result (λ line. line.items ≡ show_place origin.now place.now ++ words.now ++ shown.now ++ codes "\n") }
{
    let mut line = place_line(alloc, origin, place, words)?;
    line.extend_from_slice(shown)?;
    line.push(b'\n')?;
    Ok(line)
}

// A clause, and the numbers of a subgoal and an argument.
fn fault_words(
    alloc: Global,
    clause: &[u8],
    subgoal: u64,
    argument: u64,
) -> Result<Vec<u8>, AllocError>
    ensures { IfOk result (λ words. words.items ≡ fault_words clause.now subgoal argument) }
{
    let mut words = Vec::from_slice(alloc, clause)?;
    let numbers = format!(in alloc; " {subgoal} {argument}")?;
    words.extend_from_slice(numbers.as_bytes())?;
    Ok(words)
}

// A line that ends with these.
fn clause_line(
    alloc: Global,
    origin: &str,
    place: &Place,
    clause: &[u8],
    subgoal: u64,
    argument: u64,
) -> Result<Vec<u8>, AllocError>
    ensures { IfOk result (λ line. line.items ≡ show_place origin.now place.now ++ codes " E13 ModeFault " ++ fault_words clause.now subgoal argument ++ codes "\n") }
{
    let words = fault_words(alloc, clause, subgoal, argument)?;
    line_with(alloc, origin, place, b" E13 ModeFault ", &words)
}

// A clause, and the number of a subgoal.
fn subgoal_words(alloc: Global, clause: &[u8], subgoal: u64) -> Result<Vec<u8>, AllocError>
    ensures { IfOk result (λ words. words.items ≡ subgoal_words clause.now subgoal) }
{
    let mut words = Vec::from_slice(alloc, clause)?;
    let number = format!(in alloc; " {subgoal}")?;
    words.extend_from_slice(number.as_bytes())?;
    Ok(words)
}

// A line that shows a clause and a subgoal behind these words.
fn subgoal_line(
    alloc: Global,
    origin: &str,
    place: &Place,
    words: &[u8],
    clause: &[u8],
    subgoal: u64,
) -> Result<Vec<u8>, AllocError>
    ensures { IfOk result (λ line. line.items ≡ show_place origin.now place.now ++ words.now ++ subgoal_words clause.now subgoal ++ codes "\n") }
{
    let shown = subgoal_words(alloc, clause, subgoal)?;
    line_with(alloc, origin, place, words, &shown)
}

// How many answers were found, and how many there have to be.
fn count_words(alloc: Global, found: u64, expected: u64) -> Result<Vec<u8>, AllocError>
    ensures { IfOk result (λ words. words.items ≡ count_words found expected) }
{
    let mut words = b"found ".to_vec(alloc)?;
    let numbers = format!(in alloc; "{found} expected {expected}")?;
    words.extend_from_slice(numbers.as_bytes())?;
    Ok(words)
}

// A line that ends with how many answers were found, and how many there have to be.
fn count_line(
    alloc: Global,
    origin: &str,
    place: &Place,
    found: u64,
    expected: u64,
) -> Result<Vec<u8>, AllocError>
    ensures { IfOk result (λ line. line.items ≡ show_place origin.now place.now ++ codes " E19 Count " ++ count_words found expected ++ codes "\n") }
{
    let words = count_words(alloc, found, expected)?;
    line_with(alloc, origin, place, b" E19 Count ", &words)
}

// A line that ends with a number of tries.
fn budget_line(
    alloc: Global,
    origin: &str,
    place: &Place,
    tries: u64,
) -> Result<Vec<u8>, AllocError>
    ensures { IfOk result (λ line. line.items ≡ show_place origin.now place.now ++ codes " E20 Budget " ++ decimal tries ++ codes "\n") }
{
    let words = format!(in alloc; "{tries}")?;
    line_with(alloc, origin, place, b" E20 Budget ", words.as_bytes())
}
