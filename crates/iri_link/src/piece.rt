// What a walk over a text comes to.
use crate::param_text::ParamText;

// The next piece of a text, after blanks.
#[derive(Clone, Copy)]
pub(crate) enum Piece<'a> {
    // The target of a link-value.
    Target(&'a str),
    // A parameter.
    Param(ParamText<'a>),
    // A `;` with no parameter that can be written.
    NoParam,
    // A comma.
    Comma,
}
