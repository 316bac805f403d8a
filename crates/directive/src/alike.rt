// Whether texts are alike, eight bytes at once: the compiler makes of eight questions one.
ghost use Rattle.std.specs.Prelude.{◌≡◌, ◌+◌, ◌≤◌, length};
ghost use Rattle.ascii.specs.Ascii.{fold as folded, exactly};
ghost use Rattle.ascii.specs.Text.{same_by, comparing};
ghost use Rattle.directive.specs.Steps.{alike_to};

use ascii::class::fold;
use rulebook::lookup::same;

// Whether eight bytes of two texts, from a place of each on, are the same. They are written out, as an `all` over them would have a branch for each.
pub fn eight_same(a: &[u8], i: usize, b: &[u8], j: usize) -> bool
    requires { (i + 8 ≤ length a.now) × (j + 8 ≤ length b.now) }
    ensures { result ≡ alike_to exactly a.now i b.now j 7 }
{
    (a[i] == b[j])
        & (a[i + 1] == b[j + 1])
        & (a[i + 2] == b[j + 2])
        & (a[i + 3] == b[j + 3])
        & (a[i + 4] == b[j + 4])
        & (a[i + 5] == b[j + 5])
        & (a[i + 6] == b[j + 6])
        & (a[i + 7] == b[j + 7])
}

// The same with case ignored.
pub fn eight_folded(a: &[u8], i: usize, b: &[u8], j: usize) -> bool
    requires { (i + 8 ≤ length a.now) × (j + 8 ≤ length b.now) }
    ensures { result ≡ alike_to folded a.now i b.now j 7 }
{
    (fold(a[i]) == fold(b[j]))
        & (fold(a[i + 1]) == fold(b[j + 1]))
        & (fold(a[i + 2]) == fold(b[j + 2]))
        & (fold(a[i + 3]) == fold(b[j + 3]))
        & (fold(a[i + 4]) == fold(b[j + 4]))
        & (fold(a[i + 5]) == fold(b[j + 5]))
        & (fold(a[i + 6]) == fold(b[j + 6]))
        & (fold(a[i + 7]) == fold(b[j + 7]))
}

// Whether two texts of one length are the same, with case ignored or not.
pub fn alike(a: &[u8], b: &[u8], ignore_case: bool) -> bool
    requires { length a.now ≡ length b.now }
    ensures { result ≡ same_by (comparing ignore_case) a.now b.now }
{
    let mut i = 0;
    while i + 8 <= a.len() {
        if !(eight_same(a, i, b, i) || (ignore_case && eight_folded(a, i, b, i))) {
            return false;
        }
        i += 8;
    }
    same(&a[i..], &b[i..], ignore_case)
}
