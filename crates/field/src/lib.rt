// Octets and the numbers that lie in them, most significant first (RULES 1.7).
// Every function here is total. An octet past the end reads as 0, and one that has no place is not written.
#![tactic(auto)]

ghost use Rattle.std.specs.Prelude.{◌≡◌, ℕ, ◌+◌, ◌*◌, ◌<◌, get_or};
ghost use Rattle.std.proofs.lemmas.List.Edits.{sets};
ghost use Rattle.field.specs.Bits.{bits_at};
ghost use Rattle.field.specs.Layout.{octets, word_octets};
ghost use Rattle.field.specs.Word.{served};

// The octet at i.
pub fn octet_at(s: &[u8], i: usize) -> u8
    ensures { result ≡ get_or s.now i 0 }
{
    s.get(i).copied().unwrap_or(0)
}

// The N octets from octet i on.
fn octets_at<const N: usize>(s: &[u8], i: usize) -> [u8; N]
    ensures { (k : ℕ) → k < N → get_or result k 0 ≡ get_or s.now (i + k) 0 }
{
    let mut octets = [0; N];
    if i < s.len() {
        let rest = &s[i..];
        for (k, octet) in octets.iter_mut().enumerate() {
            *octet = octet_at(rest, k);
        }
    }
    octets
}

// The 16 bits from octet i on.
#[tactic(auto, using(crate::proofs::Laws::word_of))]
pub fn word_at(s: &[u8], i: usize) -> u16
    ensures { result ≡ bits_at s.now (8 * i) 16 }
{
    u16::from_be_bytes(octets_at(s, i))
}

// The 32 bits from octet i on.
#[tactic(auto, using(crate::proofs::Laws::long_of))]
pub fn long_at(s: &[u8], i: usize) -> u32
    ensures { result ≡ bits_at s.now (8 * i) 32 }
{
    u32::from_be_bytes(octets_at(s, i))
}

// Stores octets one after the other, from `at` on. Octets that all have a place have a branch of their own: there the compiler sees how many
// octets a word has, and makes one store of them.
#[tactic(auto, using(crate::proofs::Stores::placed, std::proofs::lemmas::Grind::common_steps))]
pub fn put_octets(out: &mut [u8], at: usize, src: &[u8])
    ensures { out.new ≡ sets out.old at src.now }
{
    if at < out.len() {
        let room = out.len() - at;
        if src.len() <= room {
            out[at..at + src.len()].copy_from_slice(src);
        } else {
            out[at..].copy_from_slice(&src[..room]);
        }
    }
}

// Stores the two octets of a word from i on.
pub fn put_word(out: &mut [u8], i: usize, word: u16)
    ensures { out.new ≡ sets out.old i (octets 2 word) }
{
    put_octets(out, i, &word.to_be_bytes());
}

// Stores the four octets of a number from i on.
pub fn put_long(out: &mut [u8], i: usize, number: u32)
    ensures { out.new ≡ sets out.old i (octets 4 number) }
{
    put_octets(out, i, &number.to_be_bytes());
}

// Stores words one after the other, from the front on.
#[tactic(auto, using(crate::proofs::Stores::words_on))]
pub fn put_words(out: &mut [u8], words: &[u16])
    ensures { out.new ≡ sets out.old 0 (word_octets words.now) }
{
    for (i, word) in words.iter().enumerate() {
        put_word(out, 2 * i, *word);
    }
}

// Does a word of channel and number name channel 1 or 2?
pub fn served(word: u16) -> bool
    ensures { result ≡ served word }
{
    matches!(word >> 14, 1 | 2)
}
