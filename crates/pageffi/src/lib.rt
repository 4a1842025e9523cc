// The functions of `page`, and the classing of `table`, for programs in C or Rust, which may hand in parts of any length.
// A part of another length is left as it is.
#![tactic(auto)]

ghost use Rattle.std.specs.Prelude.{◌≡◌, length, replicate};
ghost use Rattle.pageffi.specs.Numbers.{classed, programmed};

use model::Spare;
use table::Table;

/// The class of a page: 0 erased, 1 whole, 2 torn, 3 where the part is not 528 bytes long.
#[tactic(auto, unfolding(crate::specs::Numbers::classed))]
#[unsafe(no_mangle)]
pub extern "C" fn pageffi_class(page: &[u8]) -> u8
    ensures { result ≡ classed page.now }
{
    if page.len() != Spare::PAGE {
        return 3;
    }
    page::number(page::classify(page))
}

/// The same, its zero bits counted by the table, as recovery counts them.
#[tactic(auto, unfolding(crate::specs::Numbers::classed))]
#[unsafe(no_mangle)]
pub extern "C" fn pageffi_class_by_table(page: &[u8]) -> u8
    ensures { result ≡ classed page.now }
{
    if page.len() != Spare::PAGE {
        return 3;
    }
    let table = Table::new();
    page::number(table.classify(page))
}

/// Programs a page with 512 bytes of data and this spare area.
#[tactic(auto, unfolding(crate::specs::Numbers::programmed))]
#[unsafe(no_mangle)]
pub extern "C" fn pageffi_program(
    page: &mut [u8],
    data: &[u8],
    lpn: u16,
    cnt: u16,
    id: u32,
    ver: u32,
)
    ensures { page.new ≡ programmed page.old «data».now (record { lpn = lpn; cnt = cnt; id = id; ver = ver; kind = 0; reserved = 0 }) }
{
    if page.len() != Spare::PAGE || data.len() != Spare::DATA {
        return;
    }
    let spare = Spare {
        lpn,
        cnt,
        id,
        ver,
        kind: Spare::DATA_KIND,
        reserved: 0,
    };
    page::program(page, data, spare);
}

/// Erases a block.
#[unsafe(no_mangle)]
pub extern "C" fn pageffi_erase(block: &mut [u8])
    ensures { block.new ≡ replicate (length block.old) 255 }
{
    page::erase(block);
}
