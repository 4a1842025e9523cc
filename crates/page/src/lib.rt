// A page as 528 bytes: its class, its spare area, and how it is programmed and a block erased.
// Every function takes the part of the lent array that it speaks of; what it requires is the part's length.
#![tactic(auto)]

ghost use Rattle.std.specs.Prelude.{◌≡◌, false, ◌+◌, ◌*◌, ◌≤◌, ◌<◌, length, take, replicate};
ghost use Rattle.std.proofs.lemmas.List.Edits.{sets};
ghost use Rattle.model.specs.Lists.{part};
ghost use Rattle.model.specs.Bytes.{zero_bits, all_ff, le16, le32, bytes16, bytes32, words};
ghost use Rattle.model.specs.Page.{class_of, class_number, is_whole, is_torn, spare_of, spare_bytes, page_bytes};
ghost use Rattle.page.specs.Words.{le64, bytes64};

use model::{Class, Spare};

/// The number of 2 bytes at a place.
pub fn word16(page: &[u8], at: usize) -> u16
    requires { at + 2 ≤ length page.now }
    ensures { result ≡ le16 page.now at }
{
    u16::from_le_bytes([page[at], page[at + 1]])
}

/// The number of 4 bytes at a place.
pub fn word32(page: &[u8], at: usize) -> u32
    requires { at + 4 ≤ length page.now }
    ensures { result ≡ le32 page.now at }
{
    u32::from_le_bytes([page[at], page[at + 1], page[at + 2], page[at + 3]])
}

/// The number of 8 bytes at a place.
pub fn word64(page: &[u8], at: usize) -> u64
    requires { at + 8 ≤ length page.now }
    ensures { result ≡ le64 page.now at }
{
    u64::from_le_bytes([
        page[at],
        page[at + 1],
        page[at + 2],
        page[at + 3],
        page[at + 4],
        page[at + 5],
        page[at + 6],
        page[at + 7],
    ])
}

/// Fills the numbers with those of 2 bytes from a place on.
pub fn words16(page: &[u8], at: usize, numbers: &mut [u16])
    requires { at + 2 * length numbers.old ≤ length page.now }
    ensures { numbers.new ≡ words (part at (2 * length numbers.old) page.now) }
{
    for (i, x) in numbers.iter_mut().enumerate() {
        *x = word16(page, at + 2 * i);
    }
}

/// The zero bits of the spare area before Zeros, offsets 512 to 525, in three words: LPN, TxCnt and TxID; TxVer; Kind and Reserved.
fn spare_zeros(page: &[u8]) -> u32
    requires { length page.now ≡ 528 }
    ensures { result ≡ zero_bits (part 512 14 page.now) }
{
    word64(page, Spare::LPN).count_zeros()
        + word32(page, Spare::VER).count_zeros()
        + word16(page, Spare::KIND).count_zeros()
}

/// The zero bits of the 526 bytes before Zeros: the spare area's first, then those of the data, 64 words of 64 bits.
pub fn zeros(page: &[u8]) -> u16
    requires { length page.now ≡ 528 }
    ensures { result ≡ zero_bits (take 526 page.now) }
{
    let spare = spare_zeros(page);
    let mut data: u32 = 0;
    for w in 0..64 {
        data += word64(page, w * 8).count_zeros();
    }
    (spare + data) as u16
}

/// Whether all 528 bytes are 0xFF: the first word, then the bits that every word has.
pub fn erased(page: &[u8]) -> bool
    requires { length page.now ≡ 528 }
    ensures { result ≡ all_ff page.now }
{
    if word64(page, 0) != u64::MAX {
        return false;
    }
    // no way out of the loop: so several words are taken at once
    let mut common = u64::MAX;
    for w in 0..66 {
        common &= word64(page, w * 8);
    }
    common == u64::MAX
}

/// The class of a page that is not erased, by its zero bits, counted: whole if Zeros agrees, otherwise torn by the difference.
pub fn classed(page: &[u8], counted: u16) -> Class
    requires { (length page.now ≡ 528) × ((all_ff page.now ≡ false) × (counted ≡ zero_bits (take 526 page.now))) }
    ensures { result ≡ class_of page.now }
{
    let stored = word16(page, Spare::ZEROS);
    if counted == stored {
        Class::Whole
    } else {
        Class::Torn(stored as i32 - counted as i32)
    }
}

/// Erased, otherwise whole if Zeros agrees, otherwise torn.
#[tactic(auto, unfolding(model::specs::Page::class_of))]
pub fn classify(page: &[u8]) -> Class
    requires { length page.now ≡ 528 }
    ensures { result ≡ class_of page.now }
{
    if erased(page) {
        return Class::Erased;
    }
    classed(page, zeros(page))
}

/// The spare area before Zeros.
#[tactic(auto, unfolding(model::specs::Page::spare_of))]
pub fn read_spare(page: &[u8]) -> Spare
    requires { length page.now ≡ 528 }
    ensures { result ≡ spare_of page.now }
{
    Spare {
        lpn: word16(page, Spare::LPN),
        cnt: word16(page, Spare::CNT),
        id: word32(page, Spare::ID),
        ver: word32(page, Spare::VER),
        kind: page[Spare::KIND],
        reserved: page[Spare::RESERVED],
    }
}

/// The number of a class.
pub fn number(c: Class) -> u8
    ensures { result ≡ class_number c }
{
    match c {
        Class::Erased => 0,
        Class::Whole => 1,
        Class::Torn(_) => 2,
    }
}

/// Whether a class is whole.
pub fn is_whole(c: Class) -> bool
    ensures { result ≡ is_whole c }
{
    matches!(c, Class::Whole)
}

/// Whether a class is torn.
pub fn is_torn(c: Class) -> bool
    ensures { result ≡ is_torn c }
{
    matches!(c, Class::Torn(_))
}

/// Stores a number of 2 bytes at a place.
pub fn put16(page: &mut [u8], at: usize, x: u16)
    requires { at + 2 ≤ length page.old }
    ensures { page.new ≡ sets page.old at (bytes16 x) }
{
    page[at..at + 2].copy_from_slice(&x.to_le_bytes());
}

/// Stores a number of 4 bytes at a place.
pub fn put32(page: &mut [u8], at: usize, x: u32)
    requires { at + 4 ≤ length page.old }
    ensures { page.new ≡ sets page.old at (bytes32 x) }
{
    page[at..at + 4].copy_from_slice(&x.to_le_bytes());
}

/// Stores a number of 8 bytes at a place.
fn put64(page: &mut [u8], at: usize, x: u64)
    requires { at + 8 ≤ length page.old }
    ensures { page.new ≡ sets page.old at (bytes64 x) }
{
    page[at..at + 8].copy_from_slice(&x.to_le_bytes());
}

/// Stores the 14 bytes of the spare area before Zeros, in the words in which `spare_zeros` reads them: a word whose parts were just stored is slow to read.
fn put_spare(page: &mut [u8], s: Spare)
    requires { length page.old ≡ 528 }
    ensures { page.new ≡ sets page.old 512 (spare_bytes s) }
{
    let low = s.lpn as u64 + 65536 * (s.cnt as u64);
    put64(page, Spare::LPN, low + 4294967296 * (s.id as u64));
    put32(page, Spare::VER, s.ver);
    put16(page, Spare::KIND, s.kind as u16 + 256 * (s.reserved as u16));
}

/// Programs a page: the data, the spare area, and Zeros counted from them.
pub fn program(page: &mut [u8], data: &[u8], s: Spare)
    requires { (length page.old ≡ 528) × (length «data».now ≡ 512) }
    ensures { page.new ≡ page_bytes «data».now s }
{
    page[..Spare::DATA].copy_from_slice(data);
    put_spare(page, s);
    let z = zeros(page);
    put16(page, Spare::ZEROS, z);
}

/// Erases a block: every byte becomes 0xFF.
pub fn erase(block: &mut [u8])
    ensures { block.new ≡ replicate (length block.old) 255 }
{
    block.fill(255);
}
