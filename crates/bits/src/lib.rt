// Member sets (01, 'Log records'): member k is bit (k mod 32) of word (k div 32), bit 0 lowest, whatever the number of words.
// A number beyond the words is no member, and putting it in changes nothing.
#![tactic(auto)]

ghost use Rattle.std.specs.Prelude.{◌≡◌, ◌*◌, ◌%◌, ◌^◌, ◌<◌, length, replicate};
ghost use Rattle.members.specs.Members.{set_words, has, ones_of, inserted, joined};

// The number of words of a record's member set.
pub const WORDS: usize = 8;

// The number of bits of a word.
pub const BITS: usize = 32;

// A record's member set with no members.
pub fn empty() -> [u32; WORDS]
    ensures { result ≡ replicate set_words 0 }
{
    [0u32; WORDS]
}

// The bit of k in its word.
fn mask(k: usize) -> u32
    ensures { result ≡ 2 ^ (k % 32) }
{
    1u32 << ((k % BITS) as u32)
}

// Whether k is a member.
pub fn has(set: &[u32], k: usize) -> bool
    ensures { result ≡ has set.now k }
{
    k / BITS < set.len() && set[k / BITS] & mask(k) != 0
}

// k becomes a member.
pub fn put(set: &mut [u32], k: usize)
    ensures { set.new ≡ inserted set.old k }
{
    let at = k / BITS;
    if at < set.len() {
        set[at] |= mask(k);
    }
}

// The members of `more` become members, as far as the words go. (By index: what is left behind `iter_mut().zip(..)` the check knows only by the words that it yielded.)
pub fn join(set: &mut [u32], more: &[u32])
    ensures { set.new ≡ joined set.old more.now }
{
    for i in 0..set.len().min(more.len()) {
        set[i] |= more[i];
    }
}

// The number of ones. A word can hold it where the bits are fewer than 2 ^ 32.
pub fn count(set: &[u32]) -> u32
    requires { 32 * length set.now < 2 ^ 32 }
    ensures { result ≡ ones_of set.now }
{
    let mut n: u32 = 0;
    for word in set {
        n += word.count_ones();
    }
    n
}
