//! The functions whose instructions are counted, with those of all that they call.
use std::alloc::AllocError;

/// Changes the subject in place with each key in turn.
#[inline(never)]
pub fn changes<S, K: Copy, F: Fn(&mut S, K) -> Result<(), AllocError>>(
    subject: &mut S,
    keys: &[K],
    change: &F,
) -> Result<(), AllocError>
    requires { F.IsAlwaysCallable change.now }
{
    for key in keys {
        change(subject, *key)?;
    }
    Ok(())
}

/// Makes a version with each key in turn, each of the one before it. Where none is made, that one stays.
#[inline(never)]
pub fn versions<S: Drop, K: Copy, F: Fn(&S, K) -> Result<Option<S>, AllocError>>(
    subject: &mut S,
    keys: &[K],
    change: &F,
) -> Result<(), AllocError>
    requires { F.IsAlwaysCallable change.now }
{
    for key in keys {
        if let Some(version) = change(subject, *key)? {
            *subject = version;
        }
    }
    Ok(())
}

/// Looks each key up, and gives the sum of what is found.
#[inline(never)]
pub fn looks<S, K, F: Fn(&S, &K) -> u64>(subject: &S, keys: &[K], look: &F) -> u64
    requires { F.IsAlwaysCallable look.now }
{
    let mut sum = 0u64;
    for key in keys {
        sum = sum.wrapping_add(look(subject, key));
    }
    sum
}

/// Makes one call that takes the whole subject, and on another.
#[inline(never)]
pub fn call<S, R, F: Fn(S, &S) -> R>(subject: S, other: &S, call: &F) -> R
    requires { F.IsAlwaysCallable call.now }
{
    call(subject, other)
}

/// Makes one call on the whole subject, which stays, and on another.
#[inline(never)]
pub fn whole<S, R, F: Fn(&mut S, &S) -> R>(subject: &mut S, other: &S, call: &F) -> R
    requires { F.IsAlwaysCallable call.now }
{
    call(subject, other)
}

/// Makes one call on the subject.
#[inline(never)]
pub fn once<S, R, F: Fn(&S) -> R>(subject: &S, call: &F) -> R
    requires { F.IsAlwaysCallable call.now }
{
    call(subject)
}
