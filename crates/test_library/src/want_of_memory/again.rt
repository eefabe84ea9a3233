//! A call that is made once more where its memory was refused.

/// What a call answers, made once more where it finds no memory: `AllocError` is all that it may be refused with.
macro_rules! again {
    ($call:expr) => {
        again!($call, std::alloc::AllocError)
    };
    ($call:expr, $refused:pat) => {
        match $call {
            Err($refused) => $call,
            answer => answer,
        }
    };
}

/// Returns whether these are the bytes that are wanted.
pub(crate) fn are(bytes: &[u8], wanted: &[u8]) -> bool {
    bytes == wanted
}

pub(crate) use again;
