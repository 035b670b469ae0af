//! External terms: what is written, before names are looked up.
ghost use Rattle.std.specs.Prelude.{◌≡◌};
ghost use Rattle.tw_parse.specs.Dropping.{weight, weight_of, AreSmaller};
ghost use Rattle.tw_parse.specs.declared.term.ExtTerm.{size-ExtTerm};

use std::mem;
use tw_fixity::Name;
use tw_lexer::Place;

/// A term as it is written. `U <- V` is read as `Arrow(V, U)`. The place of `Pi` and `Lam` is that of the opening bracket.
#[derive(Debug)]
pub enum ExtTerm {
    Ident(Name, Place),
    Hole(Place),
    Star,
    Arrow(Box<ExtTerm>, Box<ExtTerm>),
    Pi(Name, Place, Option<Box<ExtTerm>>, Box<ExtTerm>),
    Lam(Name, Place, Option<Box<ExtTerm>>, Box<ExtTerm>),
    App(Box<ExtTerm>, Box<ExtTerm>),
    Ascribe(Box<ExtTerm>, Box<ExtTerm>),
}

// The terms right inside a term, from left to right.
enum Parts {
    None,
    One(Box<ExtTerm>),
    Two(Box<ExtTerm>, Box<ExtTerm>),
}

impl ExtTerm {
    #[tactic(auto, using(crate::proofs::Weights::weights))]
    fn parts(self) -> Parts
        ensures weight { weight self ≡ weight_of result }
        ensures smaller { AreSmaller result (size-ExtTerm self) }
    {
        match self {
            ExtTerm::Ident(_, _) | ExtTerm::Hole(_) | ExtTerm::Star => Parts::None,
            ExtTerm::Arrow(left, right) => Parts::Two(left, right),
            ExtTerm::Pi(_, _, domain, body) => match domain {
                None => Parts::One(body),
                Some(domain) => Parts::Two(domain, body),
            },
            ExtTerm::Lam(_, _, domain, body) => match domain {
                None => Parts::One(body),
                Some(domain) => Parts::Two(domain, body),
            },
            ExtTerm::App(left, right) => Parts::Two(left, right),
            ExtTerm::Ascribe(left, right) => Parts::Two(left, right),
        }
    }
}

// A term is dropped in a loop, so that none takes stack, however it nests: what stands first comes to the front, and the rest is put behind, until
// a leaf stands first, which goes. Which form the parts have by then doesn't matter.
impl Drop for ExtTerm {
    #[tactic(auto, using(crate::proofs::Weights::weights))]
    fn drop(mut self) {
        loop {
            match self.parts() {
                Parts::None => return,
                Parts::One(part) => self = Box::into_inner(part),
                Parts::Two(mut left, right) => {
                    match mem::replace(&mut *left, ExtTerm::Star).parts() {
                        Parts::None => self = Box::into_inner(right),
                        Parts::One(part) => self = ExtTerm::App(part, right),
                        Parts::Two(first, second) => {
                            *left = ExtTerm::App(second, right);
                            self = ExtTerm::App(first, left);
                        }
                    }
                }
            }
        }
    }
}
