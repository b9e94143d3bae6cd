//! The words of the command line (C17 5.1.2.2.1).
ghost use Rattle.std.specs.Prelude.{◌≡◌, None, Some, MatchOption};
ghost use Rattle.pv_serve.specs.Words.{texts};
ghost use Rattle.pv_suite.specs.Words.{list_of};

/// The name of the list that is asked for, where the words are one name of at least one byte.
pub(crate) fn list_asked(words: &[String]) -> Option<&str>
    ensures { MatchOption result
        (list_of (texts words.now) ≡ None)
        (λ name. list_of (texts words.now) ≡ Some name.now) }
{
    match words {
        [name] => {
            if name.as_str().is_empty() {
                None
            } else {
                Some(name.as_str())
            }
        }
        _ => None,
    }
}
