// The zero bits of each byte value as a table of 256 numbers, and the zero bits of a page counted by it, as recovery counts them.
// A page's words are first added bit by bit, with carries, so that 7 words are looked up for 66.
// Who counts takes the table into a local once and lends it: a constant that is indexed where it stands is built anew at every look.
#![tactic(auto)]

ghost use Rattle.std.specs.Prelude.{◌≡◌, ℕ, ◌+◌, ◌*◌, ◌%◌, ◌≤◌, length, take};
ghost use Rattle.std.specs.Int.Count.{ones};
ghost use Rattle.model.specs.Lists.{part};
ghost use Rattle.model.specs.Bytes.{zero_bits};
ghost use Rattle.model.specs.Page.{class_of, is_whole};
ghost use Rattle.table.specs.Counts.{counts};
ghost use Rattle.table.specs.Sums.{ones_of, worth, ones_in};
ghost use Rattle.table.specs.Looking.{look_of};

use model::{Class, Spare};

/// The zero bits of the byte values 0 to 255, as the program `zerotable` prints them: sixteen a row.
const ZEROS: [u8; 256] = *b"\
    \x08\x07\x07\x06\x07\x06\x06\x05\x07\x06\x06\x05\x06\x05\x05\x04\
    \x07\x06\x06\x05\x06\x05\x05\x04\x06\x05\x05\x04\x05\x04\x04\x03\
    \x07\x06\x06\x05\x06\x05\x05\x04\x06\x05\x05\x04\x05\x04\x04\x03\
    \x06\x05\x05\x04\x05\x04\x04\x03\x05\x04\x04\x03\x04\x03\x03\x02\
    \x07\x06\x06\x05\x06\x05\x05\x04\x06\x05\x05\x04\x05\x04\x04\x03\
    \x06\x05\x05\x04\x05\x04\x04\x03\x05\x04\x04\x03\x04\x03\x03\x02\
    \x06\x05\x05\x04\x05\x04\x04\x03\x05\x04\x04\x03\x04\x03\x03\x02\
    \x05\x04\x04\x03\x04\x03\x03\x02\x04\x03\x03\x02\x03\x02\x02\x01\
    \x07\x06\x06\x05\x06\x05\x05\x04\x06\x05\x05\x04\x05\x04\x04\x03\
    \x06\x05\x05\x04\x05\x04\x04\x03\x05\x04\x04\x03\x04\x03\x03\x02\
    \x06\x05\x05\x04\x05\x04\x04\x03\x05\x04\x04\x03\x04\x03\x03\x02\
    \x05\x04\x04\x03\x04\x03\x03\x02\x04\x03\x03\x02\x03\x02\x02\x01\
    \x06\x05\x05\x04\x05\x04\x04\x03\x05\x04\x04\x03\x04\x03\x03\x02\
    \x05\x04\x04\x03\x04\x03\x03\x02\x04\x03\x03\x02\x03\x02\x02\x01\
    \x05\x04\x04\x03\x04\x03\x03\x02\x04\x03\x03\x02\x03\x02\x02\x01\
    \x04\x03\x03\x02\x03\x02\x02\x01\x03\x02\x02\x01\x02\x01\x01\x00";

/// The table: the zero bits of each byte value, from 0 up.
#[derive(Clone, Copy)]
pub struct Table {
    zeros: [u8; 256],
    ghost counted: { zeros ≡ counts 0 256 },
}

/// What a scan takes from a page.
#[derive(Clone, Copy)]
pub struct Looked {
    pub class: Class,
    pub spare: Spare,
}

/// Two neighbouring words of a page, which the compiler takes at once.
#[derive(Clone, Copy, Default)]
pub struct Pair {
    pub left: u64,
    pub right: u64,
}

/// Three words added bit by bit, or three pairs: the carries, each worth two, and the low bits.
#[derive(Clone, Copy)]
pub struct Added<T> {
    pub carry: T,
    pub low: T,
}

/// Many words added, or many pairs: those whose bits count one, two and four.
#[derive(Clone, Copy)]
pub struct Sum<T> {
    pub one: T,
    pub two: T,
    pub four: T,
}

/// What is added bit by bit.
trait Bits: Copy {
    /// How many bits are one.
    ghost ones: { Self → ℕ };

    /// Adds three.
    fn add3(a: Self, b: Self, c: Self) -> Added<Self>
        ensures { ones a + ones b + ones c ≡ 2 * ones result.carry + ones result.low };
}

impl Bits for u64 {
    ghost ones = { ones };

    fn add3(a: u64, b: u64, c: u64) -> Added<u64> {
        let u = a ^ b;
        Added {
            carry: a & b | u & c,
            low: u ^ c,
        }
    }
}

impl Bits for Pair {
    ghost ones = { ones_of };

    fn add3(a: Pair, b: Pair, c: Pair) -> Added<Pair> {
        let l = u64::add3(a.left, b.left, c.left);
        let r = u64::add3(a.right, b.right, c.right);
        Added {
            carry: Pair {
                left: l.carry,
                right: r.carry,
            },
            low: Pair {
                left: l.low,
                right: r.low,
            },
        }
    }
}

/// The pair at a place of a page.
fn pair_at(page: &[u8], at: usize) -> Pair
    requires { at + 16 ≤ length page.now }
    ensures { ones_of result + zero_bits (take (at + 16) page.now) ≡ zero_bits (take at page.now) + 128 }
{
    Pair {
        left: page::word64(page, at),
        right: page::word64(page, at + 8),
    }
}

/// Adds the four pairs at a place of a page to those that count one and two.
fn add_pairs(page: &[u8], at: usize, one: Pair, two: Pair) -> Sum<Pair>
    requires { at + 64 ≤ length page.now }
    ensures { worth ones_of result + zero_bits (take (at + 64) page.now) ≡ ones_of one + 2 * ones_of two + zero_bits (take at page.now) + 512 }
{
    let a = Pair::add3(one, pair_at(page, at), pair_at(page, at + 16));
    let b = Pair::add3(a.low, pair_at(page, at + 32), pair_at(page, at + 48));
    let c = Pair::add3(two, a.carry, b.carry);
    Sum {
        one: b.low,
        two: c.low,
        four: c.carry,
    }
}

/// The pair of the spare area before Zeros, offsets 512 to 525: LPN, TxCnt and TxID; TxVer, Kind and Reserved.
fn spare_pair(page: &[u8]) -> Pair
    requires { length page.now ≡ 528 }
    ensures { ones_of result + zero_bits (part 512 14 page.now) ≡ 112 }
{
    let low = page::word32(page, Spare::VER) as u64;
    let high = page::word16(page, Spare::KIND) as u64;
    Pair {
        left: page::word64(page, Spare::LPN),
        right: low + 4294967296 * high,
    }
}

/// Adds four pairs.
fn add4(e: &[Pair; 4]) -> Sum<Pair>
    ensures { worth ones_of result ≡ ones_in e.now }
{
    let a = Pair::add3(e[0], e[1], e[2]);
    let b = Pair::add3(a.low, e[3], Pair::default());
    let c = Pair::add3(a.carry, b.carry, Pair::default());
    Sum {
        one: b.low,
        two: c.low,
        four: c.carry,
    }
}

/// Adds the left words of a sum, its right words and one word more: a sum of words, and the carries, which count eight.
fn fold(s: Sum<Pair>, more: u64) -> (Sum<u64>, u64)
    ensures { worth ones result.0 + 8 * ones result.1 ≡ worth ones_of s + ones more }
{
    let a = u64::add3(s.one.left, s.one.right, more);
    let b = u64::add3(s.two.left, s.two.right, a.carry);
    let c = u64::add3(s.four.left, s.four.right, b.carry);
    let low = Sum {
        one: a.low,
        two: b.low,
        four: c.low,
    };
    (low, c.carry)
}

impl Table {
    /// The table that the library carries.
    pub fn new() -> Self {
        Table { zeros: ZEROS }
    }

    /// The table of a caller's own numbers.
    pub fn of(zeros: [u8; 256]) -> Self
        requires { zeros ≡ counts 0 256 }
    {
        Table { zeros }
    }

    /// Its numbers.
    pub fn numbers(self) -> [u8; 256]
        ensures { result ≡ counts 0 256 }
    {
        self.zeros
    }

    /// The entry for a byte: what its ones leave of 8.
    fn entry(&self, b: u8) -> u32
        ensures { result + ones b ≡ 8 }
    {
        u32::from(self.zeros[usize::from(b)])
    }

    /// The one bits of a word: what the entries for its eight bytes leave of 64.
    fn word_ones(&self, x: u64) -> u32
        ensures { (result ≡ ones x) × (result ≤ 64) }
    {
        let [a, b, c, d, e, f, g, h] = x.to_le_bytes();
        let low = self.entry(a) + self.entry(b) + (self.entry(c) + self.entry(d));
        let high = self.entry(e) + self.entry(f) + (self.entry(g) + self.entry(h));
        64 - (low + high)
    }

    /// The one bits that a sum stands for: three words are looked up.
    fn sum_ones(&self, s: Sum<u64>) -> u32
        ensures { (result ≡ worth ones s) × (result ≤ 448) }
    {
        self.word_ones(s.one) + 2 * self.word_ones(s.two) + 4 * self.word_ones(s.four)
    }

    /// The one bits of four pairs and one word more, which are added before they are looked up: four words for nine.
    fn eights_ones(&self, e: &[Pair; 4], more: u64) -> u32
        ensures { (result ≡ ones_in e.now + ones more) × (result ≤ 960) }
    {
        let (low, carry) = fold(add4(e), more);
        self.sum_ones(low) + 8 * self.word_ones(carry)
    }

    /// The one bits of a sum and of the pairs kept that count eight: seven words are looked up.
    fn all_ones(&self, s: Sum<Pair>, eights: &[Pair; 4]) -> u32
        ensures { result ≡ worth ones_of s + 8 * ones_in eights.now }
    {
        let (low, carry) = fold(s, 0);
        self.sum_ones(low) + 8 * self.eights_ones(eights, carry)
    }

    /// The zero bits of the 526 bytes before Zeros by the table. What is added begins with the spare area; then come the data, eight pairs a turn.
    /// The carries that count eight are kept, to be added at the end.
    pub fn zeros(&self, page: &[u8]) -> u16
        requires { length page.now ≡ 528 }
        ensures { result ≡ zero_bits (take 526 page.now) }
    {
        let mut sum = Sum {
            one: spare_pair(page),
            two: Pair::default(),
            four: Pair::default(),
        };
        let mut eights = [Pair::default(); 4];
        for (q, e) in eights.iter_mut().enumerate() {
            let at = 128 * q;
            let a = add_pairs(page, at, sum.one, sum.two);
            let b = add_pairs(page, at + 64, a.one, a.two);
            let c = Pair::add3(sum.four, a.four, b.four);
            sum = Sum {
                one: b.one,
                two: b.two,
                four: c.low,
            };
            *e = c.carry;
        }
        (4208 - self.all_ones(sum, &eights)) as u16
    }

    /// The class of a page by the table: erased, otherwise whole if Zeros agrees, otherwise torn.
    #[tactic(auto, unfolding(model::specs::Page::class_of))]
    pub fn classify(&self, page: &[u8]) -> Class
        requires { length page.now ≡ 528 }
        ensures { result ≡ class_of page.now }
    {
        if page::erased(page) {
            return Class::Erased;
        }
        page::classed(page, self.zeros(page))
    }

    /// Whether a page is whole, by the table. It counts by itself, so that `zeros` is compiled once and not into each who asks for a class.
    #[tactic(auto, unfolding(model::specs::Page::class_of))]
    pub fn is_whole(&self, page: &[u8]) -> bool
        requires { length page.now ≡ 528 }
        ensures { result ≡ is_whole (class_of page.now) }
    {
        if page::erased(page) {
            return false;
        }
        page::is_whole(page::classed(page, self.zeros(page)))
    }

    /// The class and the spare area: they depend on these 528 bytes alone.
    #[tactic(auto, unfolding(crate::specs::Looking::look_of))]
    pub fn look(&self, page: &[u8]) -> Looked
        requires { length page.now ≡ 528 }
        ensures { result ≡ look_of page.now }
    {
        Looked {
            class: self.classify(page),
            spare: page::read_spare(page),
        }
    }
}
