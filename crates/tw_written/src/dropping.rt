//! What is written is dropped in a loop, so that none takes stack, however it nests.
ghost use Rattle.std.specs.Prelude.{◌+◌, ◌*◌, ◌<◌, IfSome};
ghost use Rattle.tw_written.specs.View.{written_of, written_type_of, written_kind_of};
ghost use Rattle.tw_written.specs.Dropping.{piece_weight, term_waits, type_waits, kind_waits, term_weight, type_weight, kind_weight, weight_left};

use crate::{Written, WrittenKind, WrittenType};

// A term, a type or a kind, if any.
pub(crate) enum Piece {
    Nothing,
    Term(Written),
    Type(WrittenType),
    Kind(WrittenKind),
}

// What is being dropped; and what waits, of each sort one at most.
pub(crate) struct Left {
    piece: Piece,
    term: Option<Box<Written>>,
    family: Option<Box<WrittenType>>,
    kind: Option<Box<WrittenKind>>,
}

impl Left {
    // One step: what is being dropped goes, or comes behind what is right inside it; else what waits is dropped next. None where nothing is left.
    fn next(self) -> Option<Left>
        ensures { IfSome result (λ l. weight_left l < weight_left self) }
    {
        let Left {
            piece,
            term,
            family,
            kind,
        } = self;
        match piece {
            Piece::Nothing => waiting(term, family, kind),
            Piece::Term(first) => {
                let (piece, term) = term_step(first, term);
                Some(Left {
                    piece,
                    term,
                    family,
                    kind,
                })
            }
            Piece::Type(first) => {
                let (piece, family) = type_step(first, family);
                Some(Left {
                    piece,
                    term,
                    family,
                    kind,
                })
            }
            Piece::Kind(first) => {
                let (piece, kind) = kind_step(first, kind);
                Some(Left {
                    piece,
                    term,
                    family,
                    kind,
                })
            }
        }
    }
}

fn term_step(term: Written, rest: Option<Box<Written>>) -> (Piece, Option<Box<Written>>)
    ensures { 2 * piece_weight result.0 + term_waits result.1 < 2 * term_weight (written_of term) + term_waits rest }
{
    match rest {
        None => {
            let (rest, piece) = term.parts();
            (piece, rest)
        }
        Some(rest) => {
            let (piece, rest) = term.behind(rest);
            (piece, Some(rest))
        }
    }
}

fn type_step(
    family: WrittenType,
    rest: Option<Box<WrittenType>>,
) -> (Piece, Option<Box<WrittenType>>)
    ensures { 2 * piece_weight result.0 + type_waits result.1 < 2 * type_weight (written_type_of family) + type_waits rest }
{
    match rest {
        None => {
            let (rest, piece) = family.parts();
            (piece, rest)
        }
        Some(rest) => {
            let (piece, rest) = family.behind(rest);
            (piece, Some(rest))
        }
    }
}

fn kind_step(kind: WrittenKind, rest: Option<Box<WrittenKind>>) -> (Piece, Option<Box<WrittenKind>>)
    ensures { 2 * piece_weight result.0 + kind_waits result.1 < 2 * kind_weight (written_kind_of kind) + kind_waits rest }
{
    match rest {
        None => {
            let (rest, piece) = kind.parts();
            (piece, rest)
        }
        Some(rest) => {
            let (piece, rest) = kind.behind(rest);
            (piece, Some(rest))
        }
    }
}

// What waits taken apart: a term first, then a type, then a kind. None where nothing waits.
fn waiting(
    term: Option<Box<Written>>,
    family: Option<Box<WrittenType>>,
    kind: Option<Box<WrittenKind>>,
) -> Option<Left>
    ensures { IfSome result (λ l. weight_left l < term_waits term + type_waits family + kind_waits kind) }
{
    match term {
        Some(term) => {
            let (term, piece) = Box::into_inner(term).parts();
            Some(Left {
                piece,
                term,
                family,
                kind,
            })
        }
        None => match family {
            Some(family) => {
                let (family, piece) = Box::into_inner(family).parts();
                Some(Left {
                    piece,
                    term: None,
                    family,
                    kind,
                })
            }
            None => match kind {
                Some(kind) => {
                    let (kind, piece) = Box::into_inner(kind).parts();
                    Some(Left {
                        piece,
                        term: None,
                        family: None,
                        kind,
                    })
                }
                None => None,
            },
        },
    }
}

// Drops a piece, with all that is in it.
#[inline(never)]
pub(crate) fn let_go(piece: Piece) {
    let mut left = Left {
        piece,
        term: None,
        family: None,
        kind: None,
    };
    loop {
        match left.next() {
            None => return,
            Some(next) => left = next,
        }
    }
}
