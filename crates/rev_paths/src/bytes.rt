//! Two texts compared, word by word.
ghost use Rattle.std.specs.Prelude.{◌≡◌, ◌-◌, ◌≤◌, bytes_eq, drop, length};

// Whether two words of eight bytes are the same.
fn same_word(a: &[u8; 8], b: &[u8; 8]) -> bool
    ensures { result ≡ bytes_eq a.now b.now }
{
    u64::from_le_bytes(*a) == u64::from_le_bytes(*b)
}

// Whether two texts of one length are the same, byte by byte.
fn same_few(a: &[u8], b: &[u8]) -> bool
    requires { length a.now ≡ length b.now }
    ensures { result ≡ bytes_eq a.now b.now }
{
    for place in 0..a.len() {
        if a[place] != b[place] {
            return false;
        }
    }
    true
}

// Whether two texts of one length are the same whose last eight bytes are the same.
fn same_before_end(a: &[u8], b: &[u8]) -> bool
    requires length { length a.now ≡ length b.now }
    requires long { 8 ≤ length a.now }
    requires ends { drop (length a.now - 8) a.now ≡ drop (length a.now - 8) b.now }
    ensures { result ≡ bytes_eq a.now b.now }
{
    let (mut rest, mut other) = (a, b);
    while let Some((word, behind)) = rest.split_first_chunk::<8>() {
        let Some((other_word, other_behind)) = other.split_first_chunk::<8>() else {
            unreachable!()
        };
        if !same_word(word, other_word) {
            return false;
        }
        rest = behind;
        other = other_behind;
    }
    true
}

/// Whether two texts are the same. Most paths are longer than a word, so this compares them by words of eight bytes, the
/// last one first: paths that differ mostly differ there.
pub fn same_bytes(a: &[u8], b: &[u8]) -> bool
    ensures { result ≡ bytes_eq a.now b.now }
{
    if a.len() != b.len() {
        return false;
    }
    let Some(end) = a.last_chunk::<8>() else {
        return same_few(a, b);
    };
    let Some(other_end) = b.last_chunk::<8>() else {
        unreachable!()
    };
    if !same_word(end, other_end) {
        return false;
    }
    same_before_end(a, b)
}
