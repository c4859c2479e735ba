//! Values of expressions, each found in a scope.
ghost use Rattle.std.specs.Prelude.{◌≡◌, ◌⊎◌, None, Some, option_map, IfErr, IfOk};
ghost use Rattle.std.specs.Result.{result_ok};
ghost use Rattle.example_scopes.specs.InScopes.{BodyOutcome, Outcome, added, number_in};
ghost use Rattle.example_scopes.specs.Meaning.{meaning, nothing, number_of};

use crate::expr::{DEPTH, Expr, Fault};
use crate::scopes::Scopes;
use std::alloc::Global;

/// What a name or an expression stands for.
#[derive(Clone, Copy)]
pub enum Value<'e> {
    Number(u64),
    /// The name of the argument, the body, and the number of the scope where the function was made.
    Closure(&'e str, &'e Expr, usize),
}

impl<'e> Value<'e> {
    // The number that it is, or None for a function.
    fn number(self) -> Option<u64>
        ensures { result ≡ number_in self.entry }
    {
        match self {
            Value::Number(number) => Some(number),
            Value::Closure(..) => None,
        }
    }

    // The sum with another one, where both are numbers.
    fn plus(self, other: Value<'e>) -> Result<Value<'e>, Fault>
        ensures { result_ok result ≡ added self.entry other.entry }
    {
        let (Value::Number(left), Value::Number(right)) = (self, other) else {
            return Err(Fault::WrongKind);
        };
        Ok(Value::Number(left.checked_add(right).ok_or(Fault::TooLarge)?))
    }
}

impl Expr {
    // The value in the scope of this number, found in at most `depth` nested steps. All scopes stay, for closures to name them.
    #[cycle(value)]
    fn value<'e>(
        &'e self,
        scopes: &mut Scopes<'e>,
        scope: usize,
        depth: usize,
    ) -> Result<Value<'e>, Fault>
        ensures { Outcome depth self.now scope scopes.old.all.items scopes.new.all.items result }
    {
        let depth = depth.checked_sub(1).ok_or(Fault::TooDeep)?;
        match self {
            Expr::Number(number) => Ok(Value::Number(*number)),
            Expr::Name(name) => scopes.look_up(scope, name.as_str()),
            Expr::Sum(left, right) => {
                let left = left.value(scopes, scope, depth)?;
                let right = right.value(scopes, scope, depth)?;
                left.plus(right)
            }
            Expr::Let(name, value, body) => {
                let value = value.value(scopes, scope, depth)?;
                body.value_where(scopes, scope, name.as_str(), value, depth)
            }
            Expr::Function(name, body) => Ok(Value::Closure(name.as_str(), body, scope)),
            Expr::Call(function, argument) => match function.value(scopes, scope, depth)? {
                Value::Number(_) => Err(Fault::WrongKind),
                Value::Closure(name, body, made_in) => {
                    let argument = argument.value(scopes, scope, depth)?;
                    body.value_where(scopes, made_in, name, argument, depth)
                }
            },
        }
    }

    // The value in a new scope inside another one, in which the name stands for the value that is given.
    #[cycle(value)]
    fn value_where<'e>(
        &'e self,
        scopes: &mut Scopes<'e>,
        outer: usize,
        name: &str,
        value: Value<'e>,
        depth: usize,
    ) -> Result<Value<'e>, Fault>
        ensures { BodyOutcome depth self.now outer name.now value.entry scopes.old.all.items scopes.new.all.items result }
    {
        let inner = scopes.bind(outer, name, value)?;
        self.value(scopes, inner, depth)
    }

    /// The number that the expression means where no name stands for anything, or None for a function. There is a fault
    /// only where it means nothing that is found in `DEPTH` steps, or where memory is wanting.
    pub fn answer(&self, alloc: Global) -> Result<Option<u64>, Fault>
        ensures ok { IfOk result (λ answer.
            option_map number_of (meaning DEPTH nothing self.now) ≡ Some answer) }
        ensures err { IfErr result (λ fault.
            (fault ≡ Fault.NoMemory) ⊎ (meaning DEPTH nothing self.now ≡ None)) }
    {
        let mut scopes = Scopes::new(alloc)?;
        let value = self.value(&mut scopes, 0, DEPTH)?;
        Ok(value.number())
    }
}
