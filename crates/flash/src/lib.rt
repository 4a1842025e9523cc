// The lent array: pages and blocks in it by number, and the single program or erase of a call.
// Every function requires that the pages which it looks at or changes lie in the array.
#![tactic(auto)]

ghost use Rattle.std.specs.Prelude.{◌≡◌, ◌+◌, ◌-◌, ◌*◌, ◌≤◌, length, ltb};
ghost use Rattle.model.specs.Page.{spare_of, page_bytes, page_at, blank_at, whole_at, torn_at};
ghost use Rattle.model.specs.Zones.{used_in, clean_in, next_in};
ghost use Rattle.model.specs.World.{apply_op, erase};
ghost use Rattle.flash.specs.Programs.{Programmed};
ghost use Rattle.flash.specs.Ranges.{Within};

use model::Spare;

/// The part of the array that is page k.
pub fn page_of(array: &[u8], k: usize) -> &[u8]
    requires { k * 528 + 528 ≤ length array.now }
    ensures { (result.now ≡ page_at array.now k) × (length result.now ≡ 528) }
{
    let at = k * Spare::PAGE;
    &array[at..at + Spare::PAGE]
}

/// Whether page k is erased.
#[tactic(auto, unfolding(model::specs::Page::blank_at))]
pub fn is_blank(array: &[u8], k: usize) -> bool
    requires { k * 528 + 528 ≤ length array.now }
    ensures { result ≡ blank_at array.now k }
{
    page::erased(page_of(array, k))
}

/// Whether page k is whole.
#[tactic(auto, unfolding(model::specs::Page::whole_at))]
pub fn is_whole(array: &[u8], k: usize) -> bool
    requires { k * 528 + 528 ≤ length array.now }
    ensures { result ≡ whole_at array.now k }
{
    page::is_whole(page::classify(page_of(array, k)))
}

/// Whether page k is torn.
#[tactic(auto, unfolding(model::specs::Page::torn_at))]
pub fn is_torn(array: &[u8], k: usize) -> bool
    requires { k * 528 + 528 ≤ length array.now }
    ensures { result ≡ torn_at array.now k }
{
    page::is_torn(page::classify(page_of(array, k)))
}

/// The spare area of page k before Zeros.
pub fn spare_at(array: &[u8], k: usize) -> Spare
    requires { k * 528 + 528 ≤ length array.now }
    ensures { result ≡ spare_of (page_at array.now k) }
{
    page::read_spare(page_of(array, k))
}

/// Programs page k with these data and this spare area.
pub fn program_at(array: &mut [u8], k: usize, data: &[u8], s: Spare)
    requires { (k * 528 + 528 ≤ length array.old) × (length «data».now ≡ 512) }
    ensures { Programmed array.old k (page_bytes «data».now s) array.new }
{
    let start = k * Spare::PAGE;
    let end = start + Spare::PAGE;
    page::program(&mut array[start..end], data, s);
}

/// Erases block b of `pages` pages.
pub fn erase_block(array: &mut [u8], pages: usize, b: usize)
    requires { b * pages * 528 + pages * 528 ≤ length array.old }
    ensures { array.new ≡ apply_op pages (erase b) array.old }
{
    let start = b * pages * Spare::PAGE;
    let end = start + pages * Spare::PAGE;
    page::erase(&mut array[start..end]);
}

/// What is still due of some clean pages beside those of block b. These are counted from its end, no further than is due.
fn still_due(array: &[u8], pages: usize, b: usize, due: usize) -> usize
    requires { b * pages * 528 + pages * 528 ≤ length array.now }
    ensures { result ≡ due - (pages - used_in array.now pages b) }
{
    let first = b * pages;
    let mut left = due;
    for n in (0..pages).rev() {
        if left == 0 {
            return 0;
        }
        if !is_blank(array, first + n) {
            return left;
        }
        left -= 1;
    }
    left
}

/// The pages of block b up to and with its last that is not erased: the clean ones come after. They are what is left due of all its pages.
pub fn used_in(array: &[u8], pages: usize, b: usize) -> usize
    requires { b * pages * 528 + pages * 528 ≤ length array.now }
    ensures { (result ≡ used_in array.now pages b) × (result ≤ pages) }
{
    still_due(array, pages, b, pages)
}

/// Whether some blocks have fewer clean pages than `least`. They are counted no further than that.
pub fn clean_short(array: &[u8], pages: usize, blocks: &[u8], least: usize) -> bool
    requires { Within (length array.now) pages blocks.now }
    ensures { result ≡ ltb (clean_in array.now pages blocks.now) least }
{
    let mut due = least;
    for b in blocks {
        due = still_due(array, pages, usize::from(*b), due);
    }
    0 < due
}

/// The page to be taken next: the first clean one of the first block that has any; 0 where none has.
pub fn next_in(array: &[u8], pages: usize, blocks: &[u8]) -> usize
    requires { Within (length array.now) pages blocks.now }
    ensures { result ≡ next_in array.now pages blocks.now }
{
    for b in blocks {
        let b = usize::from(*b);
        let used = used_in(array, pages, b);
        if used < pages {
            return b * pages + used;
        }
    }
    0
}
