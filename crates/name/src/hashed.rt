// The bucket of a string, from its bytes: equal strings have one bucket, others by chance.
ghost use Rattle.std.specs.Prelude.{◌≡◌, ◌/◌, ◌<◌, ◌≤◌, length};
ghost use Rattle.name.specs.Hashed.{mixed_of, words_of, last_word, sampled_of, bucket_of};

// A sum over the words, so that LLVM takes several at a time; the bucket is its share of 2^32.
pub fn bucket(s: &[u8], buckets: usize) -> usize
    requires { (length s.now ≤ 65535) × (0 < buckets) × (buckets ≤ 4096) }
    ensures { (result ≡ bucket_of s.now buckets) × (result < buckets) }
{
    let front = words(s, sampled(s.len(), buckets));
    let sum = front.wrapping_add(mixed(last_word(s), s.len()));
    let folded = (sum / 0x1_0000_0000 + sum % 0x1_0000_0000) * 0x5BD1_E995 / 0x1_0000;
    (folded % 0x1_0000_0000) as usize * buckets / 0x1_0000_0000
}

// How many bytes are looked at, beside the last eight: all in a large table. A small one has few strings, among them a licence of
// thousands of bytes, and looks at the first eight; a font made so that this tells too little has its first uses sorted.
fn sampled(size: usize, buckets: usize) -> usize
    ensures { (result ≡ sampled_of size buckets) × (result ≤ size) }
{
    if 4096 <= buckets { size } else { size.min(8) }
}

// The whole words of the first n bytes, by place: by number, LLVM made each turn's places anew, and long strings took 1.4 times as long.
fn words(s: &[u8], n: usize) -> u64
    requires { (n ≤ length s.now) × (n ≤ 65535) }
    ensures { result ≡ words_of s.now (n / 8) }
{
    let mut sum = 0u64;
    for k in (0..n / 8 * 8).step_by(8) {
        sum = sum.wrapping_add(mixed(crate::eight_at(s, k), k));
    }
    sum
}

// The last eight bytes, or all of fewer.
fn last_word(s: &[u8]) -> u64
    ensures { result ≡ last_word s.now }
{
    let n = s.len();
    if 8 <= n {
        return crate::eight_at(s, n - 8);
    }
    if 4 <= n {
        return u64::from(read::u32_at(s, 0)) * 0x1_0000_0000 + u64::from(read::u32_at(s, n - 4));
    }
    if n == 0 {
        return 0;
    }
    u64::from(s[0]) * 0x1_0000 + u64::from(s[n / 2]) * 0x100 + u64::from(s[n - 1])
}

// A word and its place, which the words' sum must know: the product of two halves.
fn mixed(word: u64, at: usize) -> u64
    requires { at ≤ 65535 }
    ensures { result ≡ mixed_of word at }
{
    let x = word.wrapping_add(0x9E37_79B9_7F4A_7C15 + at as u64);
    (x % 0x1_0000_0000) * (x / 0x1_0000_0000)
}
