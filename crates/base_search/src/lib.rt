// Bytes of texts: where one first stands, and whether two texts are the same.
#![tactic(auto)]

ghost use Rattle.std.specs.Prelude.{◌+◌, ◌≡◌, length, drop};
ghost use Rattle.base_search.specs.Search.{before, same};

// The place of the first such byte from `from` on, or the end; `from` itself, where that is behind the end.
pub fn find(s: &[u8], from: usize, b: u8) -> usize
    ensures { result ≡ from + length (before b (drop from s.now)) }
{
    for i in from..s.len() {
        if s[i] == b {
            return i;
        }
    }
    from.max(s.len())
}

// Whether two texts are the same.
pub fn is_same(s: &[u8], t: &[u8]) -> bool
    ensures { result ≡ same s.now t.now }
{
    s == t
}
