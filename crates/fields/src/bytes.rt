// Single bytes and rows of bytes.
ghost use Rattle.std.specs.Prelude.{◌≡◌, ℕ, ◌+◌, get_or};
ghost use Rattle.laws.specs.Lists.{stands_at};
ghost use Rattle.laws.specs.Changes.{overlay, put};

// The byte k places after the place at, 0 past the end.
pub fn byte(s: &[u8], at: usize, k: usize) -> u8
    ensures { result ≡ get_or s.now (at + k) 0 }
{
    // Through `get` a check of a full disk takes 12 to 27 in 100 longer, whichever way the sum is kept from overflowing.
    if at < s.len() && k < s.len() - at {
        s[at + k]
    } else {
        0
    }
}

// Copies src into dst from at on; bytes that would stand past the end of dst are left out.
pub fn copy_into(dst: &mut [u8], at: usize, src: &[u8])
    ensures { dst.new ≡ put dst.old at src.now }
{
    // Byte by byte: `copy_from_slice` is a call of memmove, which nothing else in the archive for C needs.
    let n = dst.len().saturating_sub(at).min(src.len());
    for (i, byte) in src[..n].iter().enumerate() {
        dst[at + i] = *byte;
    }
}

// Sets the n bytes from at on to v; those past the end of dst are left out.
pub fn fill(dst: &mut [u8], at: usize, n: usize, v: u8)
    ensures { dst.new ≡ overlay dst.old at n (λ (k : ℕ). v) }
{
    let start = at.min(dst.len());
    let end = at.saturating_add(n).min(dst.len());
    dst[start..end].fill(v);
}

// Whether the bytes of t stand in s from at on, all of them before the end of s.
pub fn stands_at(s: &[u8], at: usize, t: &[u8]) -> bool
    ensures { result ≡ stands_at s.now at t.now }
{
    at <= s.len() && s[at..].starts_with(t)
}
