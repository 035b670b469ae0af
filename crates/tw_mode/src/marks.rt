//! Sets of variables as marks, the outermost variable's first.
ghost use Rattle.std.specs.Prelude.{◌≡◌};
ghost use Rattle.lf.specs.Variables.{same_number};
ghost use Rattle.tw_signature.specs.Marks.{marked};
ghost use Rattle.tw_mode.specs.Scopes.{in_marks};

/// Whether a variable is marked, where so many are in scope; one without a mark counts as `other`.
pub fn is_marked(marks: &[bool], depth: u64, variable: u64, other: bool) -> bool
    ensures { result ≡ in_marks other depth marks.now variable }
{
    if variable >= depth {
        return other;
    }
    let place = depth - 1 - variable;
    if place >= marks.len() as u64 {
        return other;
    }
    marks[place as usize]
}

/// Marks a variable, if it has a mark.
pub fn mark_variable(variable: u64, depth: u64, marks: &mut [bool])
    ensures { marks.new ≡ marked depth (λ i. same_number variable i) marks.old }
{
    if variable >= depth {
        return;
    }
    let place = depth - 1 - variable;
    if place >= marks.len() as u64 {
        return;
    }
    marks[place as usize] = true;
}
