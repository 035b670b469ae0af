//! What stands outside a type.
ghost use Rattle.std.specs.Prelude.{◌≡◌, length};

/// For each variable outside a type, the outermost first, whether no value changes it, and whether it is ground. Past these no variable is fixed, and each is ground.
#[derive(Clone, Copy)]
pub struct Outside<'a> {
    pub depth: u64,
    pub fixed: &'a [bool],
    pub ground: &'a [bool],
}

/// What these marks say, of which there are as many.
pub fn outside_of<'a>(fixed: &'a Vec<bool>, ground: &'a Vec<bool>) -> Outside<'a>
    ensures depth { result.depth ≡ length fixed.now.items }
    ensures fixed { result.fixed.now ≡ fixed.now.items }
    ensures ground { result.ground.now ≡ ground.now.items }
{
    Outside {
        depth: fixed.len() as u64,
        fixed,
        ground,
    }
}
