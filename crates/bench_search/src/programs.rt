//! Programs and goals as texts, in the forms of `tests_forms`.
use std::alloc::{AllocError, Global};
use tw_fixity::Name;

// numbers, lists and pegs, and what is searched for
const PROGRAM: &str = "nat type
z nat
s (> n nat nat)
list type
nil list
cons (> x nat (> l list list))
append (> l list (> m list (> n list type)))
append-nil (> m list (append nil m m))
append-cons (> x nat (> l list (> m list (> n list (> a (append l m n) (append (cons x l) m (cons x n)))))))
nrev (> l list (> r list type))
nrev-nil (nrev nil nil)
nrev-cons (> x nat (> l list (> m list (> r list (> a (append m (cons x nil) r) (> n (nrev l m) (nrev (cons x l) r)))))))
peg type
pa peg
pb peg
pc peg
move (> a peg (> b peg type))
hanoi (> n nat (> a peg (> b peg (> c peg type))))
hanoi-z (> a peg (> b peg (> c peg (hanoi z a b c))))
hanoi-s (> n nat (> a peg (> b peg (> c peg (> r (hanoi n c b a) (> m (move a b) (> l (hanoi n a c b) (hanoi (s n) a b c))))))))
loop type
again (> l loop loop)
";

const MOVES: &str = "move-ab (move pa pb)
move-ac (move pa pc)
move-ba (move pb pa)
move-bc (move pb pc)
move-ca (move pc pa)
move-cb (move pc pb)
";

// puts a line for the number behind the text: a family with a constant, or one more peg and a move from it
fn add_line(
    alloc: Global,
    text: &mut String,
    are_families: bool,
    number: u64,
) -> Result<(), AllocError> {
    let line = if are_families {
        format!(in alloc; "f{number} type\nc{number} f{number}\n")
    } else {
        format!(in alloc; "p{number} peg\nm{number} (move p{number} pa)\n")
    };
    text.push_str(line?.as_str())
}

/// The program: for `families` beside so many families with a constant each, for `clashes` with so many moves from other pegs before those that the goal needs.
pub(crate) fn program_of(alloc: Global, kind: &str, size: u64) -> Result<String, AllocError> {
    let mut text = String::new(alloc);
    text.push_str(PROGRAM)?;
    let lines = if kind == "families" || kind == "clashes" {
        size
    } else {
        0
    };
    for number in 0..lines {
        add_line(alloc, &mut text, kind == "families", number)?;
    }
    text.push_str(MOVES)?;
    Ok(text)
}

/// The goal, whose one variable is R.
pub(crate) fn goal_of(alloc: Global, kind: &str, size: u64) -> Result<String, AllocError> {
    match kind {
        "hanoi" => format!(in alloc; "(hanoi (repeat {size} t (s t) z) pa pb pc)"),
        "nrev" | "proof" => format!(in alloc; "(nrev (repeat {size} t (cons z t) nil) R)"),
        "loop" => format!(in alloc; "loop"),
        "answers" => format!(in alloc; "nat"),
        _ => format!(in alloc; "(hanoi (repeat 10 t (s t) z) pa pb pc)"),
    }
}

/// How many tries are made at most: the loop has no end, nor have the answers, which are all numbers.
pub(crate) fn budget_of(kind: &str, size: u64) -> u64 {
    if kind == "loop" || kind == "answers" {
        size
    } else {
        1 << 40
    }
}

/// The name of the proof, where it is to be read.
pub(crate) fn proof_of(alloc: Global, kind: &str) -> Result<Option<Name>, AllocError> {
    if kind == "proof" {
        Ok(Some(Name::from_text(alloc, "D")?))
    } else {
        Ok(None)
    }
}
