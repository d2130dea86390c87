// A word compared in full with a spelling.

ghost use Rattle.std.specs.Prelude.{true, ◌≡◌, ◌+◌, ◌*◌, ◌≤◌, length};
ghost use Rattle.kinds.specs.Kinds.{same};
ghost use Rattle.words.specs.Comparison as comparison;
ghost use Rattle.words.specs.Comparison.{at_once, part, with_bit, all_letters, likeness};

// How a word stands to a keyword's spelling.
#[derive(Clone, Copy)]
pub enum Likeness {
    Same,
    // Different in the case of letters alone.
    ButCase,
    Different,
}

// The bytes that are compared at once.
const AT_ONCE: usize = 4;

// The bytes that are compared at once, from a place on, as one number: the compiler reads them so.
fn packed(bytes: &[u8], i: usize) -> u32
    requires { i + at_once ≤ length bytes.now }
    ensures { result ≡ comparison.packed (part at_once i bytes.now) }
{
    u32::from_le_bytes([bytes[i], bytes[i + 1], bytes[i + 2], bytes[i + 3]])
}

// Whether the bytes that are compared at once, from a place on, are the same with a bit set in each.
fn is_part_same(word: &[u8], spelling: &[u8], i: usize, bit: u8) -> bool
    requires { (length word.now ≡ length spelling.now) × (i + at_once ≤ length word.now) }
    ensures { result ≡ same (part at_once i (with_bit bit word.now)) (part at_once i (with_bit bit spelling.now)) }
{
    let bits = u32::from_le_bytes([bit; AT_ONCE]);
    (packed(word, i) | bits) == (packed(spelling, i) | bits)
}

// Whether a word is spelled so with a bit set in each byte, byte by byte: for words of fewer bytes than are compared at once.
fn is_same_by_bytes(word: &[u8], spelling: &[u8], bit: u8) -> bool
    requires { length word.now ≡ length spelling.now }
    ensures { result ≡ same (with_bit bit word.now) (with_bit bit spelling.now) }
{
    for (a, b) in word.iter().zip(spelling) {
        if (*a | bit) != (*b | bit) {
            return false;
        }
    }
    true
}

// Whether a word is spelled so with a bit set in each byte: its first part, the one behind that where the word is longer than two,
// and its last part, which may have bytes of those before.
fn is_same(word: &[u8], spelling: &[u8], bit: u8) -> bool
    requires { (length word.now ≡ length spelling.now) × (length word.now ≤ 3 * at_once) }
    ensures { result ≡ same (with_bit bit word.now) (with_bit bit spelling.now) }
{
    let size = word.len();
    if size < AT_ONCE {
        return is_same_by_bytes(word, spelling, bit);
    }
    is_part_same(word, spelling, 0, bit)
        && (size <= 2 * AT_ONCE || is_part_same(word, spelling, AT_ONCE, bit))
        && is_part_same(word, spelling, size - AT_ONCE, bit)
}

// No bit: spellings are compared as they are.
const NO_BIT: u8 = 0;

// The bit by which a letter differs from its capital. With it set in both, a byte equals a letter exactly if it is that letter in
// either case.
const CASE_BIT: u8 = b'a' - b'A';

// Compares a word with a spelling of its length, which has letters alone and no more than three parts.
pub fn likeness_of(word: &[u8], spelling: &[u8]) -> Likeness
    requires { (length word.now ≡ length spelling.now) × (length word.now ≤ 3 * at_once) × (all_letters spelling.now ≡ true) }
    ensures { result ≡ likeness word.now spelling.now }
{
    if is_same(word, spelling, NO_BIT) {
        return Likeness::Same;
    }
    if is_same(word, spelling, CASE_BIT) {
        return Likeness::ButCase;
    }
    Likeness::Different
}
