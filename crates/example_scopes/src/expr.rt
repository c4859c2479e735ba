//! Expressions, and why one may have no value.
ghost use Rattle.std.specs.Prelude.{◌≡◌};
ghost use Rattle.example_scopes.specs.declared.expr.Fault.TheVariants.{NoMemory};

use std::alloc::AllocError;

/// How deep an expression may be, and its evaluation go.
pub const DEPTH: usize = 1000;

/// An expression, which owns its names.
#[derive(Drop)]
pub enum Expr {
    Number(u64),
    Name(String),
    Sum(Box<Expr>, Box<Expr>),
    /// The name stands for the value of the first in the second.
    Let(String, Box<Expr>, Box<Expr>),
    /// The name stands for what the function is called with.
    Function(String, Box<Expr>),
    /// The first is called with the value of the second.
    Call(Box<Expr>, Box<Expr>),
}

/// Why there is no value.
#[derive(Clone, Copy, Debug)]
pub enum Fault {
    NotUnderstood,
    /// A name stands for nothing where it is used.
    Unbound,
    /// A sum has more than 64 bits.
    TooLarge,
    /// A function is added, or a number called.
    WrongKind,
    /// The expression is deeper, or its evaluation goes deeper, than it may.
    TooDeep,
    NoMemory,
}

impl From<AllocError> for Fault {
    ghost from_gives = { λ _ fault. fault ≡ NoMemory };

    fn from(_: AllocError) -> Fault {
        Fault::NoMemory
    }
}
