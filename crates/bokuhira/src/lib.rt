// The commands for callers in C or Rust (include/bokuhira.h; crate `bokuhira_c` exports them). The array, the map, the hold and the state, as bytes (crate `encoding`), are
// lent as slices. Nothing is required of a caller. Format and recover take any 2,881 bytes for the state, since after power-up anything
// stands there; to the other commands bytes that encode no state are a bad frame, answered 1. An answer is a number, 0 done, 255 more, else
// the refusal's, and a refusal leaves every slice as it was. Beside the commands stands the class of a page, for whoever looks into an array.
#![tactic(auto)]

ghost use Rattle.std.specs.Prelude.{◌≡◌, true, cond, length};
ghost use Rattle.model.specs.Answers.{number, refused};
ghost use Rattle.model.specs.Commands.{format, recover, begin, write, drop_page, lone, commit, abort, checkpoint, reclaim};
ghost use Rattle.encoding.specs.Encoding.{encodes, state_from, bytes_of};
ghost use Rattle.bokuhira.specs.Calls.{Result, called, start_from, sized, started, Found, read_called, Classed, class_called};

use device::{Device, Reply};
use model::{Class, Geometry, Spare, State};

/// The device whose state the bytes say.
fn device(state: &[u8]) -> Device
    requires { encodes state.now ≡ true }
    ensures { result.state ≡ state_from state.now }
{
    Device {
        state: encoding::load(state),
    }
}

/// Whether the bytes are as many as a state has.
fn sized(state: &[u8]) -> bool
    ensures { result ≡ sized state.now }
{
    state.len() == encoding::STATE
}

/// The device that a format starts from: of the state that the bytes say, or where they encode none, of a fresh one.
fn starting(state: &[u8], g: Geometry) -> Device
    requires { length state.now ≡ 2881 }
    ensures { result.state ≡ start_from g state.now }
{
    if encoding::encodes(state) {
        return device(state);
    }
    Device {
        state: State::fresh(g),
    }
}

/// The answer's number of a reply; unless it refuses, its state is stored.
// in the frame of its caller: the reply is not copied once more
#[inline(always)]
fn finish(state: &mut [u8], r: Reply) -> u8
    requires { length state.old ≡ 2881 }
    ensures { (result ≡ number r.answer) × (state.new ≡ cond (refused (number r.answer)) state.old (bytes_of r.device.state)) }
{
    let n = answers::number(r.answer);
    if !answers::refused(n) {
        // copied out: were the reply itself lent, a command's stack would be 2.6 KB deeper
        let s = r.device.state;
        encoding::store(state, &s);
    }
    n
}

/// One stride of a format. Any 2,881 bytes will do for the state.
pub fn bokuhira_format(
    array: &mut [u8],
    map: &mut [u16],
    hold: &[u8],
    state: &mut [u8],
    blocks: u16,
    pages: u16,
    logical: u16,
    planes: u16,
) -> u8
    ensures { ◌≡◌ {A = Result} (record { answer = result; array = array.new; map = map.new; hold = hold.now; bytes = state.new }) (started format (record { blocks = blocks; pages = pages; logical = logical; planes = planes }) array.old map.old hold.now state.old) }
{
    if !sized(state) {
        return 1;
    }
    let g = Geometry {
        blocks,
        pages,
        logical,
        planes,
    };
    let r = starting(state, g).format(array, map, hold, g);
    finish(state, r)
}

/// Makes map and state from what stands on the array. Any 2,881 bytes will do for the state: none is looked at.
pub fn bokuhira_recover(
    array: &[u8],
    map: &mut [u16],
    hold: &[u8],
    state: &mut [u8],
    blocks: u16,
    pages: u16,
    logical: u16,
    planes: u16,
) -> u8
    ensures { ◌≡◌ {A = Result} (record { answer = result; array = array.now; map = map.new; hold = hold.now; bytes = state.new }) (started recover (record { blocks = blocks; pages = pages; logical = logical; planes = planes }) array.now map.old hold.now state.old) }
{
    if !sized(state) {
        return 1;
    }
    let g = Geometry {
        blocks,
        pages,
        logical,
        planes,
    };
    let d = Device {
        state: State::fresh(g),
    };
    let r = d.recover(array, map, hold, g);
    finish(state, r)
}

/// Opens a change.
// each command in full: of what a closure does to a slice that it borrows, who takes the closure could promise nothing
pub fn bokuhira_begin(array: &[u8], map: &[u16], hold: &[u8], state: &mut [u8], id: u32) -> u8
    ensures { ◌≡◌ {A = Result} (record { answer = result; array = array.now; map = map.now; hold = hold.now; bytes = state.new }) (called (begin id) array.now map.now hold.now state.old) }
{
    if !encoding::encodes(state) {
        return 1;
    }
    let r = device(state).begin(array, map, hold, id);
    finish(state, r)
}

/// Adds a page to an open change.
pub fn bokuhira_write(
    array: &mut [u8],
    map: &[u16],
    hold: &mut [u8],
    state: &mut [u8],
    data: &[u8],
    id: u32,
    lpn: u16,
) -> u8
    ensures { ◌≡◌ {A = Result} (record { answer = result; array = array.new; map = map.now; hold = hold.new; bytes = state.new }) (called (write id lpn «data».now) array.old map.now hold.old state.old) }
{
    if !encoding::encodes(state) {
        return 1;
    }
    let r = device(state).write(array, map, hold, id, lpn, data);
    finish(state, r)
}

/// Adds a page to an open change that drops its logical page.
pub fn bokuhira_drop(
    array: &mut [u8],
    map: &[u16],
    hold: &mut [u8],
    state: &mut [u8],
    id: u32,
    lpn: u16,
) -> u8
    ensures { ◌≡◌ {A = Result} (record { answer = result; array = array.new; map = map.now; hold = hold.new; bytes = state.new }) (called (drop_page id lpn) array.old map.now hold.old state.old) }
{
    if !encoding::encodes(state) {
        return 1;
    }
    let r = device(state).drop(array, map, hold, id, lpn);
    finish(state, r)
}

/// Writes a page by itself.
pub fn bokuhira_lone(
    array: &mut [u8],
    map: &mut [u16],
    hold: &[u8],
    state: &mut [u8],
    data: &[u8],
    lpn: u16,
) -> u8
    ensures { ◌≡◌ {A = Result} (record { answer = result; array = array.new; map = map.new; hold = hold.now; bytes = state.new }) (called (lone lpn «data».now) array.old map.old hold.now state.old) }
{
    if !encoding::encodes(state) {
        return 1;
    }
    let r = device(state).lone(array, map, hold, lpn, data);
    finish(state, r)
}

/// Closes a change and enters its pages.
pub fn bokuhira_commit(
    array: &mut [u8],
    map: &mut [u16],
    hold: &[u8],
    state: &mut [u8],
    id: u32,
) -> u8
    ensures { ◌≡◌ {A = Result} (record { answer = result; array = array.new; map = map.new; hold = hold.now; bytes = state.new }) (called (commit id) array.old map.old hold.now state.old) }
{
    if !encoding::encodes(state) {
        return 1;
    }
    let r = device(state).commit(array, map, hold, id);
    finish(state, r)
}

/// Forgets an open change.
pub fn bokuhira_abort(array: &[u8], map: &[u16], hold: &[u8], state: &mut [u8], id: u32) -> u8
    ensures { ◌≡◌ {A = Result} (record { answer = result; array = array.now; map = map.now; hold = hold.now; bytes = state.new }) (called (abort id) array.now map.now hold.now state.old) }
{
    if !encoding::encodes(state) {
        return 1;
    }
    let r = device(state).abort(array, map, hold, id);
    finish(state, r)
}

/// Whether a logical page can be read; if so, `at` becomes the place in the array at which its 512 bytes begin.
pub fn bokuhira_read(
    array: &[u8],
    map: &[u16],
    hold: &[u8],
    state: &[u8],
    at: &mut usize,
    lpn: u16,
) -> u8
    ensures { ◌≡◌ {A = Found} (record { answer = result; at = at.new }) (read_called lpn array.now map.now hold.now state.now at.old) }
{
    if !encoding::encodes(state) {
        return 1;
    }
    // a number, and a place to write to beside it: it is called from C
    let n = answers::number(device(state).read(array, map, hold, lpn));
    if n != 0 {
        return n;
    }
    *at = usize::from(map[usize::from(lpn)]) * Spare::PAGE;
    n
}

/// One stride of a checkpoint.
pub fn bokuhira_checkpoint(array: &mut [u8], map: &[u16], hold: &[u8], state: &mut [u8]) -> u8
    ensures { ◌≡◌ {A = Result} (record { answer = result; array = array.new; map = map.now; hold = hold.now; bytes = state.new }) (called checkpoint array.old map.now hold.now state.old) }
{
    if !encoding::encodes(state) {
        return 1;
    }
    let r = device(state).checkpoint(array, map, hold);
    finish(state, r)
}

/// One stride of a reclaim.
pub fn bokuhira_reclaim(array: &mut [u8], map: &mut [u16], hold: &[u8], state: &mut [u8]) -> u8
    ensures { ◌≡◌ {A = Result} (record { answer = result; array = array.new; map = map.new; hold = hold.now; bytes = state.new }) (called reclaim array.old map.old hold.now state.old) }
{
    if !encoding::encodes(state) {
        return 1;
    }
    let r = device(state).reclaim(array, map, hold);
    finish(state, r)
}

/// The class of a page: 0 erased, 1 whole, 2 torn, and then `difference` becomes Zeros minus the zero bits counted; 3 where the part is not 528 bytes long.
pub fn bokuhira_class(page: &[u8], difference: &mut i32) -> u8
    ensures { ◌≡◌ {A = Classed} (record { class = result; difference = difference.new }) (class_called page.now difference.old) }
{
    if page.len() != Spare::PAGE {
        return 3;
    }
    // numbers, and a place to write to beside them: it is called from C
    match page::classify(page) {
        Class::Erased => 0,
        Class::Whole => 1,
        Class::Torn(d) => {
            *difference = d;
            2
        }
    }
}
