// The eleven commands. A device goes in and comes back, with the array, the map and the hold lent beside it.
// Nothing is required of a caller: whatever is handed in, a command answers as document 01 (docs/PAPERS.md) says.
// Array, map and hold are lent one by one and not as one struct: `&` or `&mut` says which of them a command may change.
#![tactic(auto)]

ghost use Rattle.std.specs.Prelude.{◌≡◌};
ghost use Rattle.model.specs.Answers.{number};
ghost use Rattle.model.specs.Commands.{Outcome, exec, format, recover, begin, write, drop_page, lone, commit, abort, read, checkpoint, reclaim};
ghost use Rattle.model.specs.Transactions.{read_part};
ghost use Rattle.device.specs.Replies.{replied};

use model::{Answer, Geometry, State};
use strides::Stride;

/// The handle with the commands.
#[derive(Clone, Copy)]
pub struct Device {
    pub state: State,
}

/// What a command gives back.
#[derive(Clone, Copy)]
pub struct Reply {
    pub answer: Answer,
    pub device: Device,
}

/// The reply of a command: its answer, and the device with the state after it.
fn strode(t: Stride) -> Reply
    ensures { result ≡ replied t.answer t.state }
{
    Reply {
        answer: t.answer,
        device: Device { state: t.state },
    }
}

impl Device {
    /// Opens a change: 6, 7, 9.
    pub fn begin(self, array: &[u8], map: &[u16], hold: &[u8], id: u32) -> Reply
        ensures { ◌≡◌ {A = Outcome} (record { answer = number result.answer; world = record { array = array.now; map = map.now; hold = hold.now; state = result.device.state } }) (exec (begin id) (record { array = array.now; map = map.now; hold = hold.now; state = self.state })) }
    {
        strode(opening::begin(self.state, array, map, hold, id))
    }

    /// Adds a page to an open change: 11, 5, 8, 10, 12.
    pub fn write(
        self,
        array: &mut [u8],
        map: &[u16],
        hold: &mut [u8],
        id: u32,
        lpn: u16,
        data: &[u8],
    ) -> Reply
        ensures { ◌≡◌ {A = Outcome} (record { answer = number result.answer; world = record { array = array.new; map = map.now; hold = hold.new; state = result.device.state } }) (exec (write id lpn «data».now) (record { array = array.old; map = map.now; hold = hold.old; state = self.state })) }
    {
        strode(writing::write(self.state, array, map, hold, id, lpn, data))
    }

    /// Adds a page that drops a logical page to an open change: 5, 8, 10, 12.
    pub fn drop(self, array: &mut [u8], map: &[u16], hold: &mut [u8], id: u32, lpn: u16) -> Reply
        ensures { ◌≡◌ {A = Outcome} (record { answer = number result.answer; world = record { array = array.new; map = map.now; hold = hold.new; state = result.device.state } }) (exec (drop_page id lpn) (record { array = array.old; map = map.now; hold = hold.old; state = self.state })) }
    {
        strode(writing::drop(self.state, array, map, hold, id, lpn))
    }

    /// Writes a page by itself: 11, 5, 13, 12.
    pub fn lone(
        self,
        array: &mut [u8],
        map: &mut [u16],
        hold: &[u8],
        lpn: u16,
        data: &[u8],
    ) -> Reply
        ensures { ◌≡◌ {A = Outcome} (record { answer = number result.answer; world = record { array = array.new; map = map.new; hold = hold.now; state = result.device.state } }) (exec (lone lpn «data».now) (record { array = array.old; map = map.old; hold = hold.now; state = self.state })) }
    {
        strode(writing::lone(self.state, array, map, hold, lpn, data))
    }

    /// Closes a change and enters its pages: 8; 13 and 12 only with a held page.
    pub fn commit(self, array: &mut [u8], map: &mut [u16], hold: &[u8], id: u32) -> Reply
        ensures { ◌≡◌ {A = Outcome} (record { answer = number result.answer; world = record { array = array.new; map = map.new; hold = hold.now; state = result.device.state } }) (exec (commit id) (record { array = array.old; map = map.old; hold = hold.now; state = self.state })) }
    {
        strode(writing::commit(self.state, array, map, hold, id))
    }

    /// Forgets an open change: 8.
    pub fn abort(self, array: &[u8], map: &[u16], hold: &[u8], id: u32) -> Reply
        ensures { ◌≡◌ {A = Outcome} (record { answer = number result.answer; world = record { array = array.now; map = map.now; hold = hold.now; state = result.device.state } }) (exec (abort id) (record { array = array.now; map = map.now; hold = hold.now; state = self.state })) }
    {
        strode(opening::abort(self.state, array, map, hold, id))
    }

    /// What reading a logical page answers: 5, 14.
    pub fn read(self, array: &[u8], map: &[u16], hold: &[u8], lpn: u16) -> Answer
        ensures { ◌≡◌ {A = Outcome} (record { answer = number result; world = record { array = array.now; map = map.now; hold = hold.now; state = self.state } }) (exec (read lpn) (record { array = array.now; map = map.now; hold = hold.now; state = self.state })) }
    {
        reading::read(self.state, array, map, hold, lpn)
    }

    /// The part of the array that a read hands back: the 512 bytes of the mapped page, empty where refused.
    pub fn read_part<'a>(self, array: &'a [u8], map: &[u16], hold: &[u8], lpn: u16) -> &'a [u8]
        ensures { result.now ≡ read_part lpn (record { array = array.now; map = map.now; hold = hold.now; state = self.state }) }
    {
        reading::read_part(self.state, array, map, hold, lpn)
    }

    /// One stride of a checkpoint: 13.
    pub fn checkpoint(self, array: &mut [u8], map: &[u16], hold: &[u8]) -> Reply
        ensures { ◌≡◌ {A = Outcome} (record { answer = number result.answer; world = record { array = array.new; map = map.now; hold = hold.now; state = result.device.state } }) (exec checkpoint (record { array = array.old; map = map.now; hold = hold.now; state = self.state })) }
    {
        strode(housekeeping::checkpoint(self.state, array, map, hold))
    }

    /// One stride of a reclaim: 15, 13, 16.
    pub fn reclaim(self, array: &mut [u8], map: &mut [u16], hold: &[u8]) -> Reply
        ensures { ◌≡◌ {A = Outcome} (record { answer = number result.answer; world = record { array = array.new; map = map.new; hold = hold.now; state = result.device.state } }) (exec reclaim (record { array = array.old; map = map.old; hold = hold.now; state = self.state })) }
    {
        strode(housekeeping::reclaim(self.state, array, map, hold))
    }

    /// One stride of a format: 1, for geometry, lengths and its own work under way.
    pub fn format(self, array: &mut [u8], map: &mut [u16], hold: &[u8], g: Geometry) -> Reply
        ensures { ◌≡◌ {A = Outcome} (record { answer = number result.answer; world = record { array = array.new; map = map.new; hold = hold.now; state = result.device.state } }) (exec (format g) (record { array = array.old; map = map.old; hold = hold.now; state = self.state })) }
    {
        strode(starting::format(self.state, array, map, hold, g))
    }

    /// Makes map and state from what stands on the array: 1, for geometry and lengths; 2, 3, 4.
    pub fn recover(self, array: &[u8], map: &mut [u16], hold: &[u8], g: Geometry) -> Reply
        ensures { ◌≡◌ {A = Outcome} (record { answer = number result.answer; world = record { array = array.now; map = map.new; hold = hold.now; state = result.device.state } }) (exec (recover g) (record { array = array.now; map = map.old; hold = hold.now; state = self.state })) }
    {
        strode(starting::recover(self.state, array, map, hold, g))
    }
}
