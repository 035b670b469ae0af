//! Environments of closures: substitutions that are not yet carried out. They have no code here: each function carries one law as its contract.
#![tactic(auto)]

ghost use Rattle.lf_closures.specs.Laws.{FoundIsImage, EnvironmentKeepsSkeletons, VariableEntersClosure, LambdaTakesClosure};

/// What an environment has for a variable is the image that its substitution gives.
pub fn found_is_image()
    ensures { FoundIsImage }
{}

/// An environment that fits is a substitution that keeps skeletons.
pub fn environment_keeps_skeletons()
    ensures { EnvironmentKeepsSkeletons }
{}

/// A variable that has a closure is the closure applied to the variable's arguments.
pub fn variable_enters_closure()
    ensures { VariableEntersClosure }
{}

/// A lambda takes an argument by having its closure in front of the environment.
pub fn lambda_takes_closure()
    ensures { LambdaTakesClosure }
{}
