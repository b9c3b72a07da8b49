ghost use Rattle.std.specs.Prelude.{◌≡◌, is_some, not};
ghost use Rattle.cv_scope_rules.specs.typing.Refusals.{named, refusal};

use std::alloc::AllocError;

/// A rule of typing that a node breaks.
#[derive(Clone, Copy, Debug, PartialEq, Eq)]
pub enum Fault {
    /// A term has another type than its position asks, or a variable another type than at its first site.
    WrongType,
    /// A function, an event or an array has another number of arguments or indices.
    Arity,
    /// An index is an argument of a function or an event, goes out, or is the term of a `let`.
    IndexAsMessage,
    /// A `new` is of a type that isn't fixed.
    NotFixed,
}

/// Why a game or a file isn't typed: the first node in preorder that breaks a rule.
#[derive(Clone, Copy, Debug, PartialEq, Eq)]
pub enum TypeFault {
    /// A term has another type than its position asks, or a variable another type than at its first site.
    WrongType(u32),
    /// A function, an event or an array has another number of arguments or indices.
    Arity(u32),
    /// An index is an argument of a function or an event, goes out, or is the term of a `let`.
    IndexAsMessage(u32),
    /// A `new` is of a type that isn't fixed.
    NotFixed(u32),
    /// There was no memory to decide.
    OutOfMemory,
}

impl From<AllocError> for TypeFault {
    ghost use Rattle.std.specs.Prelude.{◌≡◌};
    ghost use Rattle.cv_scope_rules.specs.declared.typing.fault.TypeFault.TheVariants.{OutOfMemory};

    ghost from_gives = { λ _ e. e ≡ OutOfMemory };

    fn from(_: AllocError) -> TypeFault {
        TypeFault::OutOfMemory
    }
}

impl TypeFault {
    /// Whether the refusal names no fault.
    pub fn is_want_of_memory(self) -> bool
        ensures { result ≡ not (is_some (named self)) }
    {
        matches!(self, TypeFault::OutOfMemory)
    }
}

impl Fault {
    /// The refusal for this fault of a node at a place.
    pub fn at(self, place: u32) -> TypeFault
        ensures { result ≡ refusal place self }
    {
        match self {
            Fault::WrongType => TypeFault::WrongType(place),
            Fault::Arity => TypeFault::Arity(place),
            Fault::IndexAsMessage => TypeFault::IndexAsMessage(place),
            Fault::NotFixed => TypeFault::NotFixed(place),
        }
    }
}
