//! The first fault of a list.
//!
//! A closure tells nothing of what it looks for by a kind, so that `or_else` can't be proved; hence a macro.

/// The first fault of these, which are looked for one after the other until there is one.
macro_rules! first_fault {
    ($($fault:expr),+ $(,)?) => {{
        $(
            if let Some(fault) = $fault {
                return Some(fault);
            }
        )+
        None
    }};
}

pub(crate) use first_fault;
