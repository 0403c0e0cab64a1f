//! Tables of spellings.

ghost use Rattle.std.specs.Prelude.{◌≡◌, map};
ghost use Rattle.sial_parser.specs.Words.{entry_of};

/// What a table says of a spelling.
pub fn look_up<X: Copy>(table: &[(&[u8], X)], spelling: &[u8]) -> Option<X>
    ensures { result ≡ entry_of (map (λ e. (e.0.now, e.1)) table.now) spelling.now }
{
    for (known, what) in table {
        if spelling == *known {
            return Some(*what);
        }
    }
    None
}
