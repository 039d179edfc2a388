//! What runs in a thread, or was run in place of one, and the places in which it is.

ghost use Rattle.std.specs.Prelude.{◌≡◌, ◌<◌, ◌∷◌, None, MatchOption, IsPermutation, slice_index_or, vec_len};
ghost use Rattle.server_threads.specs.Promises.{promise_of, Due};
ghost use Rattle.server_threads.specs.Serving.{taken};

use std::thread::{Promise, PromisedHandle, Threads};

/// A thread that is to be joined; or, where it couldn't be started, the result.
#[derive(Drop)]
pub(crate) enum Started<T, P: Promise<T>> {
    Thread(PromisedHandle<T, P>),
    Here(T, P),
}

impl<T, P: Promise<T> + Drop> Started<T, P> {
    /// The result, as was promised.
    pub(crate) fn join<R: Threads>(self, rt: &R) -> T
        requires { Due P.kept_by self }
        ensures { P.kept_by (promise_of self) result }
    {
        match self {
            Started::Thread(child) => child.join(rt),
            Started::Here(done, _) => done,
        }
    }
}

/// Takes out what is in a place, if anything is.
pub(crate) fn take_out<T>(places: &mut Vec<Option<T>>, at: usize) -> Option<T>
    requires { at < vec_len places.old }
    ensures out { MatchOption result (taken places.new.items ≡ taken places.old.items) (λ one. IsPermutation (taken places.old.items) (one ∷ taken places.new.items)) }
    ensures free { slice_index_or places.new.items at None ≡ None }
    ensures len { vec_len places.new ≡ vec_len places.old }
{
    places[at].take()
}

/// Puts something into a place that is free.
pub(crate) fn put_in<T: Drop>(places: &mut Vec<Option<T>>, at: usize, one: T)
    requires within { at < vec_len places.old }
    requires free { slice_index_or places.old.items at None ≡ None }
    ensures put { IsPermutation (one ∷ taken places.old.items) (taken places.new.items) }
    ensures len { vec_len places.new ≡ vec_len places.old }
{
    places[at] = Some(one);
}
