//! A text whose expressions are read, and the names in it.
ghost use Rattle.std.specs.Prelude.{◌≤◌, length};
ghost use Rattle.lock_text.specs.Tokens.{max_text};

use names::NameList;

/// A text within the limit of length, and the names of its variables.
#[derive(Clone, Copy)]
pub(crate) struct Source<'a> {
    pub text: &'a [u8],
    pub names: &'a NameList<'a>,
    ghost short: { length text.now ≤ max_text },
}
