// What is wrong with a line of a script.
use std::alloc::AllocError;
use thiserror::Error;

#[derive(Debug, Drop, Error)]
pub(crate) enum Wrong {
    #[error("the first word begins no line of a script")]
    Word,
    #[error("not in the form: {0}")]
    Form(&'static str),
    #[error("stands before the first box")]
    NoBox,
    #[error("stands after the first call of its box")]
    AfterCall,
    #[error("stands after the first look of its box")]
    AfterLook,
    #[error("a card has 16 bad blocks at most")]
    TooManyBad,
    #[error("{0}")]
    Memory(#[from(alloc)] AllocError),
}
