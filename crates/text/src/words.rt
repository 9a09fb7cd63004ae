// Comparing byte strings.
ghost use Rattle.std.specs.Prelude.{◌≡◌};
ghost use Rattle.text.specs.Words.{same};

// Whether two slices hold the same bytes. Of a word that stands in the code the compiler makes comparisons with constants here; by
// `a == b` it makes a call, which took 187 instructions more of an iwd file of seven settings, over the bar of docs/PERFORMANCE.md.
pub fn equal(a: &[u8], b: &[u8]) -> bool
    ensures { result ≡ same a.now b.now }
{
    if a.len() != b.len() {
        return false;
    }
    for i in 0..a.len() {
        if a[i] != b[i] {
            return false;
        }
    }
    true
}
