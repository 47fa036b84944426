// Classes of statements, and the rules on them. What holds a wrong while has no class.
ghost use Rattle.std.specs.Prelude.{◌≡◌};
ghost use Rattle.spec_language.specs.Classes.{is_c};
ghost use Rattle.front_classes.specs.Codes.{class_of, sequence_code, if_code, while_code, body_allowed};

#[derive(Clone, Copy)]
pub(crate) enum Class {
    A,
    B,
    C,
}

// The class of two parts in sequence.
#[tactic(auto, unfolding(crate::specs::Codes::class_code, crate::specs::Codes::class_of, spec_language::specs::Classes::pair, spec_design::specs::Statement::seq_class))]
pub(crate) fn sequence_class(a: Option<Class>, b: Option<Class>) -> Option<Class>
    ensures { result ≡ sequence_code a b }
{
    match (a?, b?) {
        (Class::C, _) | (_, Class::C) => Some(Class::C),
        (Class::B, _) | (_, Class::B) => Some(Class::B),
        (Class::A, Class::A) => Some(Class::A),
    }
}

// The class of an if whose parts have these classes.
#[tactic(auto, unfolding(crate::specs::Codes::class_code, crate::specs::Codes::class_of, spec_language::specs::Classes::pair, spec_design::specs::Statement::if_class))]
pub(crate) fn if_class(a: Option<Class>, b: Option<Class>) -> Option<Class>
    ensures { result ≡ if_code a b }
{
    match (a?, b?) {
        (Class::A, Class::A) => Some(Class::A),
        (Class::C, Class::C) => Some(Class::C),
        _ => Some(Class::B),
    }
}

// The class of a while whose body has this class.
#[tactic(auto, unfolding(crate::specs::Codes::class_code, crate::specs::Codes::class_of, spec_language::specs::Classes::looped))]
pub(crate) fn while_class(body: Option<Class>) -> Option<Class>
    ensures { result ≡ while_code body }
{
    match body {
        Some(Class::C) => Some(Class::B),
        _ => None,
    }
}

// Whether a body of this class is no offence in a while.
#[tactic(auto, unfolding(crate::specs::Codes::class_of, spec_language::specs::Classes::not_classed_wrong))]
pub(crate) fn body_allowed(body: Option<Class>) -> bool
    ensures { result ≡ body_allowed body }
{
    matches!(body, None | Some(Class::C))
}

// Whether a body of this class is no offence in a process.
#[tactic(auto, unfolding(crate::specs::Codes::class_of, spec_language::specs::Classes::is_c))]
pub(crate) fn is_c(body: Option<Class>) -> bool
    ensures { result ≡ is_c (class_of body) }
{
    matches!(body, Some(Class::C))
}
