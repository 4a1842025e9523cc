// What callers in C or Rust link (include/bokuhira.h): the functions of crate `bokuhira` under their names, each with the clauses that it has there. A crate
// is built as a library or as a static library, and `archive` stands on the library.
#![tactic(auto)]

ghost use Rattle.std.specs.Prelude.{◌≡◌};
ghost use Rattle.model.specs.Commands.{format, recover, begin, write, drop_page, lone, commit, abort, checkpoint, reclaim};
ghost use Rattle.bokuhira.specs.Calls.{Result, called, started, Found, read_called, Classed, class_called};

/// One stride of a format. Any 2,881 bytes will do for the state.
#[unsafe(no_mangle)]
pub extern "C" fn bokuhira_format(
    array: &mut [u8],
    map: &mut [u16],
    hold: &[u8],
    state: &mut [u8],
    blocks: u16,
    pages: u16,
    logical: u16,
    planes: u16,
) -> u8
    ensures { ◌≡◌ {A = Result} (record { answer = result; array = array.new; map = map.new; hold = hold.now; bytes = state.new }) (started format (record { blocks = blocks; pages = pages; logical = logical; planes = planes }) array.old map.old hold.now state.old) }
{
    bokuhira::bokuhira_format(array, map, hold, state, blocks, pages, logical, planes)
}

/// Makes map and state from what stands on the array. Any 2,881 bytes will do for the state: none is looked at.
#[unsafe(no_mangle)]
pub extern "C" fn bokuhira_recover(
    array: &[u8],
    map: &mut [u16],
    hold: &[u8],
    state: &mut [u8],
    blocks: u16,
    pages: u16,
    logical: u16,
    planes: u16,
) -> u8
    ensures { ◌≡◌ {A = Result} (record { answer = result; array = array.now; map = map.new; hold = hold.now; bytes = state.new }) (started recover (record { blocks = blocks; pages = pages; logical = logical; planes = planes }) array.now map.old hold.now state.old) }
{
    bokuhira::bokuhira_recover(array, map, hold, state, blocks, pages, logical, planes)
}

/// Opens a change.
#[unsafe(no_mangle)]
pub extern "C" fn bokuhira_begin(
    array: &[u8],
    map: &[u16],
    hold: &[u8],
    state: &mut [u8],
    id: u32,
) -> u8
    ensures { ◌≡◌ {A = Result} (record { answer = result; array = array.now; map = map.now; hold = hold.now; bytes = state.new }) (called (begin id) array.now map.now hold.now state.old) }
{
    bokuhira::bokuhira_begin(array, map, hold, state, id)
}

/// Adds a page to an open change.
#[unsafe(no_mangle)]
pub extern "C" fn bokuhira_write(
    array: &mut [u8],
    map: &[u16],
    hold: &mut [u8],
    state: &mut [u8],
    data: &[u8],
    id: u32,
    lpn: u16,
) -> u8
    ensures { ◌≡◌ {A = Result} (record { answer = result; array = array.new; map = map.now; hold = hold.new; bytes = state.new }) (called (write id lpn «data».now) array.old map.now hold.old state.old) }
{
    bokuhira::bokuhira_write(array, map, hold, state, data, id, lpn)
}

/// Adds a page to an open change that drops its logical page.
#[unsafe(no_mangle)]
pub extern "C" fn bokuhira_drop(
    array: &mut [u8],
    map: &[u16],
    hold: &mut [u8],
    state: &mut [u8],
    id: u32,
    lpn: u16,
) -> u8
    ensures { ◌≡◌ {A = Result} (record { answer = result; array = array.new; map = map.now; hold = hold.new; bytes = state.new }) (called (drop_page id lpn) array.old map.now hold.old state.old) }
{
    bokuhira::bokuhira_drop(array, map, hold, state, id, lpn)
}

/// Writes a page by itself.
#[unsafe(no_mangle)]
pub extern "C" fn bokuhira_lone(
    array: &mut [u8],
    map: &mut [u16],
    hold: &[u8],
    state: &mut [u8],
    data: &[u8],
    lpn: u16,
) -> u8
    ensures { ◌≡◌ {A = Result} (record { answer = result; array = array.new; map = map.new; hold = hold.now; bytes = state.new }) (called (lone lpn «data».now) array.old map.old hold.now state.old) }
{
    bokuhira::bokuhira_lone(array, map, hold, state, data, lpn)
}

/// Closes a change and enters its pages.
#[unsafe(no_mangle)]
pub extern "C" fn bokuhira_commit(
    array: &mut [u8],
    map: &mut [u16],
    hold: &[u8],
    state: &mut [u8],
    id: u32,
) -> u8
    ensures { ◌≡◌ {A = Result} (record { answer = result; array = array.new; map = map.new; hold = hold.now; bytes = state.new }) (called (commit id) array.old map.old hold.now state.old) }
{
    bokuhira::bokuhira_commit(array, map, hold, state, id)
}

/// Forgets an open change.
#[unsafe(no_mangle)]
pub extern "C" fn bokuhira_abort(
    array: &[u8],
    map: &[u16],
    hold: &[u8],
    state: &mut [u8],
    id: u32,
) -> u8
    ensures { ◌≡◌ {A = Result} (record { answer = result; array = array.now; map = map.now; hold = hold.now; bytes = state.new }) (called (abort id) array.now map.now hold.now state.old) }
{
    bokuhira::bokuhira_abort(array, map, hold, state, id)
}

/// Whether a logical page can be read; if so, `at` becomes the place in the array at which its 512 bytes begin.
#[unsafe(no_mangle)]
pub extern "C" fn bokuhira_read(
    array: &[u8],
    map: &[u16],
    hold: &[u8],
    state: &[u8],
    at: &mut usize,
    lpn: u16,
) -> u8
    ensures { ◌≡◌ {A = Found} (record { answer = result; at = at.new }) (read_called lpn array.now map.now hold.now state.now at.old) }
{
    bokuhira::bokuhira_read(array, map, hold, state, at, lpn)
}

/// One stride of a checkpoint.
#[unsafe(no_mangle)]
pub extern "C" fn bokuhira_checkpoint(
    array: &mut [u8],
    map: &[u16],
    hold: &[u8],
    state: &mut [u8],
) -> u8
    ensures { ◌≡◌ {A = Result} (record { answer = result; array = array.new; map = map.now; hold = hold.now; bytes = state.new }) (called checkpoint array.old map.now hold.now state.old) }
{
    bokuhira::bokuhira_checkpoint(array, map, hold, state)
}

/// One stride of a reclaim.
#[unsafe(no_mangle)]
pub extern "C" fn bokuhira_reclaim(
    array: &mut [u8],
    map: &mut [u16],
    hold: &[u8],
    state: &mut [u8],
) -> u8
    ensures { ◌≡◌ {A = Result} (record { answer = result; array = array.new; map = map.new; hold = hold.now; bytes = state.new }) (called reclaim array.old map.old hold.now state.old) }
{
    bokuhira::bokuhira_reclaim(array, map, hold, state)
}

/// The class of a page: 0 erased, 1 whole, 2 torn, and then `difference` becomes Zeros minus the zero bits counted; 3 where the part is not 528 bytes long.
#[unsafe(no_mangle)]
pub extern "C" fn bokuhira_class(page: &[u8], difference: &mut i32) -> u8
    ensures { ◌≡◌ {A = Classed} (record { class = result; difference = difference.new }) (class_called page.now difference.old) }
{
    bokuhira::bokuhira_class(page, difference)
}
