//! Names for variables that come in scope.
ghost use Rattle.std.specs.Prelude.{◌≡◌, IfOk};
ghost use Rattle.tw_print.specs.Names as spec;
ghost use Rattle.tw_print.specs.SceneView.{scene_in};

use crate::scene::Scene;
use std::alloc::{AllocError, Global};
use tw_fixity::{Name, Scope};
use tw_terms::numbers::one_more;

/// The first of the base and the base followed by 1, 2, 3 and so on that isn't taken. Each is looked up in the scope, the signature and the table.
pub fn fresh_name(
    alloc: Global,
    scene: &Scene,
    scope: &Scope,
    base: &[u8],
) -> Result<Name, AllocError>
    ensures { IfOk result (λ n. n ≡ spec.fresh_name (scene_in scene.now) scope.now base.now) }
{
    let mut number: u64 = 0;
    loop {
        let name = candidate(alloc, base, number)?;
        if !is_taken(scene, scope, name.as_bytes()) {
            return Ok(name);
        }
        number = one_more(number)?;
    }
}

/// Whether a variable in scope, a constant or an operator has the name.
fn is_taken(scene: &Scene, scope: &Scope, name: &[u8]) -> bool
    ensures { result ≡ spec.is_taken (scene_in scene.now) scope.now name.now }
{
    scope.contains(name) || scene.lookup(name).is_some() || scene.row(name).is_some()
}

/// The base, followed by the number unless this is 0.
fn candidate(alloc: Global, base: &[u8], number: u64) -> Result<Name, AllocError>
    ensures { IfOk result (λ n. n ≡ spec.candidate base.now number) }
{
    if number == 0 {
        return Name::from_bytes(alloc, base);
    }
    let digits = number.to_string(alloc)?;
    let mut bytes = Vec::from_slice(alloc, base)?;
    bytes.extend_from_slice(digits.as_bytes())?;
    Name::from_bytes(alloc, &bytes)
}
