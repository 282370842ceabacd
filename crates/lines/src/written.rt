//! The names line.

ghost use Rattle.std.specs.Prelude.{◌≡◌, ◌++◌, MatchOption};
ghost use Rattle.lines.specs.Written.{names_line, HasNoNames};

/// What stands behind the names line, where the text begins with it.
pub fn behind_names(text: &[u8]) -> Option<&[u8]>
    ensures { MatchOption result (HasNoNames text.now) (λ rest. text.now ≡ names_line ++ rest.now) }
{
    text.strip_prefix(b"call,id,kind,category,day,side,amount,deliverer,receiver\n")
}
