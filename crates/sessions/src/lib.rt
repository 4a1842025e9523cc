// Every short session, by point 13 of document 02 (docs/PAPERS.md): each is run on a device of its own, and put as a line with the maps recovered after its
// cuts. They are run by number, shorter ones first, so that the order of the loops is the order of the text.
#![tactic(auto)]

ghost use Rattle.std.specs.Prelude.{◌≡◌, not, ◌+◌, ◌*◌, ◌≤◌, length, take, is_some, unwrap_or};
ghost use Rattle.model.specs.Lists.{keep};
ghost use Rattle.model.specs.Answers.{number, refused};
ghost use Rattle.model.specs.World.{World};
ghost use Rattle.model.specs.Commands.{Outcome, exec};
ghost use Rattle.model.specs.Frame.{fresh_state};
ghost use Rattle.model.specs.Sessions.{Commands, command_of, small, fresh, strides, recovered, accepted, cuts, session, sessions_from};
ghost use Rattle.text.specs.Text.{Put};
ghost use Rattle.sessions.specs.Text.{map_text, maps_text, line_of, lines_in, Lists, Adds, holds_page, will_program, world_of, Turned};

use device::{Device, Reply};
use model::{Geometry, Place, Spare, State};

/// The bytes of an array of 8 × 8 pages.
const ARRAY: usize = 33792;

/// The logical pages.
const LOGICAL: usize = 16;

/// The strides of a format.
const STRIDES: u8 = 10;

/// The commands of the longest session.
const LONGEST: usize = 4;

/// Room for a line: its numbers, and two maps for each command.
const LINE: usize = 3072;

/// An array with the map and the hold that are lent for it, and the device.
#[derive(Clone, Copy)]
struct Rig {
    array: [u8; ARRAY],
    map: [u16; LOGICAL],
    hold: [u8; State::HOLD],
    device: Device,
}

/// One plane of 8 × 8 pages, 16 logical.
fn geometry() -> Geometry
    ensures { result ≡ small }
{
    Geometry {
        blocks: 8,
        pages: 8,
        logical: 16,
        planes: 1,
    }
}

/// A device that nothing is known of.
fn blank() -> Device
    ensures { result.state ≡ fresh_state small }
{
    Device {
        state: State::fresh(geometry()),
    }
}

/// Command c of the ten, by the numbers that point 13 gives them.
fn call(d: Device, array: &mut [u8], map: &mut [u16], hold: &mut [u8], c: u8) -> Reply
    requires { (1 ≤ c) × (c ≤ 10) }
    ensures { ◌≡◌ {A = Outcome} (record { answer = number result.answer; world = record { array = array.new; map = map.new; hold = hold.new; state = result.device.state } }) (exec (command_of c) (record { array = array.old; map = map.old; hold = hold.old; state = d.state })) }
{
    match c {
        1..=2 => d.begin(array, map, hold, c as u32),
        3..=6 => {
            let data = [0u8; Spare::DATA];
            let k = c - 1;
            d.write(array, map, hold, (k / 2) as u32, (k % 2) as u16, &data)
        }
        7..=8 => d.commit(array, map, hold, (c - 6) as u32),
        _ => d.abort(array, map, hold, (c - 8) as u32),
    }
}

/// Whether a change has a page held.
fn holds_page(places: [Place; State::PLACES], id: u32) -> bool
    ensures { result ≡ holds_page places id }
{
    let Some(i) = places::place_of(&places, id) else {
        return false;
    };
    places[i].count != 0
}

/// Whether command c programs a page, if it is not refused: a write or a commit, where one is held.
fn will_program(places: [Place; State::PLACES], c: u8) -> bool
    requires { (1 ≤ c) × (c ≤ 10) }
    ensures { result ≡ will_program (command_of c) places }
{
    match c {
        3..=6 => holds_page(places, ((c - 1) / 2) as u32),
        7..=8 => holds_page(places, (c - 6) as u32),
        _ => false,
    }
}

/// Puts a blank and the map that is recovered from an array, if there is a cut.
fn put_cut(out: &mut [u8], at: usize, array: &[u8], cut: bool) -> usize
    requires { at + 337 ≤ length out.old }
    ensures { Put out.old at (keep cut (map_text (recovered array.now))) 337 out.new result }
{
    if !cut {
        return at;
    }
    let mut map = [0u16; LOGICAL];
    let hold = [0u8; State::HOLD];
    blank().recover(array, &mut map, &hold, geometry());
    let a = text::put(out, at, b" ");
    text::put_list(out, a, &map)
}

impl Rig {
    /// Formats the device.
    fn format(&mut self)
        ensures { world_of self.new ≡ strides small 10 (world_of self.old) }
    {
        for _ in 0..STRIDES {
            let r = self
                .device
                .format(&mut self.array, &mut self.map, &self.hold, geometry());
            self.device = r.device;
        }
    }

    /// One command of a session, with the cuts before and after its program. Where it is refused nothing is put.
    fn turn(&mut self, out: &mut [u8], at: usize, c: u8) -> Option<usize>
        requires { ((1 ≤ c) × (c ≤ 10)) × (at + 674 ≤ length out.old) }
        ensures { Turned c (world_of self.old) (world_of self.new) out.old at out.new result }
    {
        let cut = will_program(self.device.state.places, c);
        let middle = put_cut(out, at, &self.array, cut);
        let r = call(
            self.device,
            &mut self.array,
            &mut self.map,
            &mut self.hold,
            c,
        );
        self.device = r.device;
        if answers::refused(answers::number(r.answer)) {
            return None;
        }
        Some(put_cut(out, middle, &self.array, cut))
    }

    /// The commands of a session one after the other, up to one that is refused, with their cuts. Where one is refused nothing is put.
    fn turns(&mut self, out: &mut [u8], at: usize, cs: &[u8]) -> Option<usize>
        requires { Commands cs.now × (at + 674 * length cs.now ≤ length out.old) }
        ensures { (is_some result ≡ accepted cs.now (world_of self.old)) × Put out.old at (keep (is_some result) (maps_text (cuts cs.now (world_of self.old)))) (674 * length cs.now) out.new (unwrap_or result at) }
    {
        let mut end = at;
        for &c in cs {
            end = self.turn(out, end, c)?;
        }
        Some(end)
    }
}

/// The commands of session k of those of n: its first n numbers.
fn session(n: usize, k: usize) -> [u8; LONGEST]
    requires { n ≤ 4 }
    ensures { take n result ≡ session n k }
{
    let mut list = [0u8; LONGEST];
    let mut rest = k;
    for i in (0..n).rev() {
        list[i] = (rest % 10) as u8 + 1;
        rest /= 10;
    }
    list
}

/// Puts the line of session k of those of n commands, if none of them is refused.
fn put_session(out: &mut [u8], at: usize, n: usize, k: usize) -> usize
    requires { (n ≤ 4) × (at + 3072 ≤ length out.old) }
    ensures { Put out.old at (keep (accepted (session n k) fresh) (line_of (session n k))) 3072 out.new result }
{
    let mut rig = Rig {
        array: [0; ARRAY],
        map: [0; LOGICAL],
        hold: [0; State::HOLD],
        device: blank(),
    };
    rig.format();
    let list = session(n, k);
    let a = text::put_list(out, at, &list[..n]);
    match rig.turns(out, a, &list[..n]) {
        Some(end) => text::put(out, end, b"\n"),
        None => at,
    }
}

/// Puts the lines of the first sessions of n commands, as many as counted; nothing where the buffer has no room for them.
fn put_lines(out: &mut [u8], at: usize, n: usize, count: usize) -> Option<usize>
    requires { (n ≤ 4) × ((length out.old ≡ 32768) × (at ≤ 32768)) }
    ensures { Adds out.old at (lines_in (sessions_from n 0 count)) out.new result }
{
    let mut end = at;
    for k in 0..count {
        if out.len() - LINE < end {
            return None;
        }
        end = put_session(out, end, n, k);
    }
    Some(end)
}

/// Puts the lines of every short session at the front of a buffer, and answers their length; nothing where the text has no room there.
pub fn list(out: &mut [u8; 32768]) -> Option<usize>
    ensures { Lists out.new result }
{
    let mut end: usize = 0;
    let mut count: usize = 1;
    for n in 0..LONGEST + 1 {
        end = put_lines(out, end, n, count)?;
        count *= 10;
    }
    Some(end)
}
