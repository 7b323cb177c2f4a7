//! The names of the templates.

/// The fourteen templates. Each fixes what a rule takes, needs, frees, locks and sends, and whether it may set.
#[derive(Clone, Copy, Debug, PartialEq, Eq)]
pub enum TemplateName {
    ImmSelf,
    ImmDown,
    ImmUp,
    RqUp,
    RqUpSelf,
    RqUpDown,
    RqDownSelf,
    RqDownDown,
    RsDown,
    RsDownSelf,
    RsDownRqDown,
    RsUpDown,
    RsUpUp,
    RsUpSelf,
}
