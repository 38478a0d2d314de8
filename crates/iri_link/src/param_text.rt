// A parameter as it stands in a field value.

// Its name, and its value where it has one, without the `"` round it; whether a `\` before a character goes there.
#[derive(Clone, Copy)]
pub(crate) struct ParamText<'a> {
    pub(crate) name: &'a str,
    pub(crate) value: Option<&'a str>,
    pub(crate) escapes: bool,
}
