//! The laws of canonical LF. They have no code: each function carries one law as its contract.
#![tactic(auto)]

ghost use Rattle.lf.specs.Laws.{RenamingsCompose, RenamedTypesCompose, RenamedIsSubstituted, ResultIsRenamed, RenamingGoesThrough, RenamingKeepsShape, NothingIsSubstituted, RulesAgree, TypeRulesAgree, RulesAreFunctional, RulesAreTotal, ReductionRulesAreTotal, TypeRulesAreTotal, SubstitutionKeepsSkeletons, SubstitutionsCompose, SubstitutionGoesThrough, ReductionAtOnce, EtaLongIsTheHead, EtaLongAtOnce, EtaLongHasType, TypedHasSkeleton, RenamingKeepsTyping, SubstitutionKeepsTyping, InstanceIsTyped, ReductionKeepsTyping, RootHasOneType, TypingIsDecidable, StrengtheningKeepsTyping, CanonicalIsSignature, BelowIsSelfContained, ExtensionKeepsTyping, WorldIsContext, ExtensionIsConservative, VariablesAreWithin};

/// One renaming after another is one renaming.
pub fn renamings_compose()
    ensures { RenamingsCompose }
{}

/// The same on types.
pub fn renamed_types_compose()
    ensures { RenamedTypesCompose }
{}

/// A renamed term is substituted in by the values at the new variables.
pub fn renamed_is_substituted()
    ensures { RenamedIsSubstituted }
{}

/// The result of a substitution is renamed by renaming the values.
pub fn result_is_renamed()
    ensures { ResultIsRenamed }
{}

/// Renaming goes through the substitution for the newest variable.
pub fn renaming_goes_through()
    ensures { RenamingGoesThrough }
{}

/// Renaming keeps depths and skeletons.
pub fn renaming_keeps_shape()
    ensures { RenamingKeepsShape }
{}

/// Keeping each variable changes nothing; a value for a variable that was just added is not used.
pub fn nothing_is_substituted()
    ensures { NothingIsSubstituted }
{}

/// What the rules of hereditary substitution derive, the functions give.
pub fn rules_agree()
    ensures { RulesAgree }
{}

/// The same on types and kinds.
pub fn type_rules_agree()
    ensures { TypeRulesAgree }
{}

/// Hereditary substitution has one result at most.
pub fn rules_are_functional()
    ensures { RulesAreFunctional }
{}

/// On skeleton-typed terms hereditary substitution has a result.
pub fn rules_are_total()
    ensures { RulesAreTotal }
{}

/// A skeleton-typed term applied to a spine of its skeleton has a result.
pub fn reduction_rules_are_total()
    ensures { ReductionRulesAreTotal }
{}

/// On skeleton-typed types and kinds hereditary substitution has a result.
pub fn type_rules_are_total()
    ensures { TypeRulesAreTotal }
{}

/// A substitution keeps skeletons.
pub fn substitution_keeps_skeletons()
    ensures { SubstitutionKeepsSkeletons }
{}

/// One substitution after another is one substitution.
pub fn substitutions_compose()
    ensures { SubstitutionsCompose }
{}

/// A substitution goes through the substitution for the newest variable.
pub fn substitution_goes_through()
    ensures { SubstitutionGoesThrough }
{}

/// A term applied to its arguments one by one is its body with all of them put in at once.
pub fn reduction_at_once()
    ensures { ReductionAtOnce }
{}

/// An eta-long head stands for the head.
pub fn eta_long_is_the_head()
    ensures { EtaLongIsTheHead }
{}

/// An eta-long form is the head applied to all its variables under all its lambdas.
pub fn eta_long_at_once()
    ensures { EtaLongAtOnce }
{}

/// The eta-long form of a head has the head's type.
pub fn eta_long_has_type()
    ensures { EtaLongHasType }
{}

/// What is typed has the skeleton of its type.
pub fn typed_has_skeleton()
    ensures { TypedHasSkeleton }
{}

/// Weakening: a renaming of one context into another keeps typing.
pub fn renaming_keeps_typing()
    ensures { RenamingKeepsTyping }
{}

/// The substitution theorem, for terms, types and kinds.
pub fn substitution_keeps_typing()
    ensures { SubstitutionKeepsTyping }
{}

/// For the newest variable the rules have just one result, and it is typed.
pub fn instance_is_typed()
    ensures { InstanceIsTyped }
{}

/// A typed term applied to a typed spine is typed.
pub fn reduction_keeps_typing()
    ensures { ReductionKeepsTyping }
{}

/// The type of a typed root is a type, and the only one.
pub fn root_has_one_type()
    ensures { RootHasOneType }
{}

/// LF typing is decidable.
pub fn typing_is_decidable()
    ensures { TypingIsDecidable }
{}

/// Strengthening: a term is typed in a context that has only the variables that it uses.
pub fn strengthening_keeps_typing()
    ensures { StrengtheningKeepsTyping }
{}

/// Canonical LF is well formed over the whole of itself.
pub fn canonical_is_signature()
    ensures { CanonicalIsSignature }
{}

/// The families below one family are self-contained.
pub fn below_is_self_contained()
    ensures { BelowIsSelfContained }
{}

/// What is typed stays typed in a legal extension.
pub fn extension_keeps_typing()
    ensures { ExtensionKeepsTyping }
{}

/// A context of worlds is a context.
pub fn world_is_context()
    ensures { WorldIsContext }
{}

/// A legal extension over a self-contained set adds no term within it.
pub fn extension_is_conservative()
    ensures { ExtensionIsConservative }
{}

/// A term within a self-contained set uses only variables whose families are in it.
pub fn variables_are_within()
    ensures { VariablesAreWithin }
{}
