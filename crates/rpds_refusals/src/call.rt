//! The calls of a container.

/// A call. Each container's tests have enums of their own for `M` and `C`, whose variants are named after its calls.
#[derive(Clone, Copy, Debug)]
pub enum Call<M, C> {
    /// Hands out a container, which takes the receiver's place.
    Made(M),
    /// Changes the receiver.
    Changed(C),
}
