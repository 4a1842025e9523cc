// Bench cases l and m of document 01 (docs/PAPERS.md), each on an array of the program's own. Answers are its numbers: 0 done, 255 more, else the
// refusal.
#![tactic(auto)]

use device::{Device, Reply};
use model::{Answer, Geometry, Spare, State};
use std::io;

/// The first byte of block 1 where a block has 8 pages.
const BLOCK_1: usize = 4224;

/// An array of N bytes with the map and the hold that are lent for it, and the device.
#[derive(Clone, Copy)]
struct Rig<const N: usize> {
    geometry: Geometry,
    array: [u8; N],
    map: [u16; 16],
    hold: [u8; State::HOLD],
    device: Device,
}

impl<const N: usize> Rig<N> {
    // in the frame of its caller: it is not copied once more
    #[inline(always)]
    fn new(geometry: Geometry) -> Rig<N> {
        Rig {
            geometry,
            array: [0; N],
            map: [0; 16],
            hold: [0; State::HOLD],
            device: Device {
                state: State::fresh(geometry),
            },
        }
    }

    /// Keeps the device that a command gave back, and tells its answer.
    fn answered(&mut self, r: Reply) -> Answer {
        self.device = r.device;
        r.answer
    }

    /// A stride of a format.
    fn format(&mut self) -> Answer {
        let r = self
            .device
            .format(&mut self.array, &mut self.map, &self.hold, self.geometry);
        self.answered(r)
    }

    /// Opens change 1.
    fn begin(&mut self) -> Answer {
        let r = self
            .device
            .begin(&mut self.array, &mut self.map, &mut self.hold, 1);
        self.answered(r)
    }

    /// A page of change 1.
    fn write(&mut self) -> Answer {
        let data = [0u8; Spare::DATA];
        let r = self.device.write(&mut self.array, &mut self.map, &mut self.hold, 1, 0, &data);
        self.answered(r)
    }

    /// Commits change 1.
    fn commit(&mut self) -> Answer {
        let r = self
            .device
            .commit(&mut self.array, &mut self.map, &self.hold, 1);
        self.answered(r)
    }

    /// A stride of a checkpoint.
    fn checkpoint(&mut self) -> Answer {
        let r = self
            .device
            .checkpoint(&mut self.array, &mut self.map, &self.hold);
        self.answered(r)
    }

    fn recover(&mut self) -> Answer {
        let r = self
            .device
            .recover(&self.array, &mut self.map, &self.hold, self.geometry);
        self.answered(r)
    }
}

/// Writes an answer's number after a space.
fn tell(rt: &impl Print, answer: Answer) -> io::Result<()> {
    print!(rt; " {}", answers::number(answer))
}

/// Formats the array, from the first stride to the one that does not answer more; a line with the answers.
// the rig is lent here and below: one that is returned is copied at each step, and the stack is nearly four times as deep
fn format_all<const N: usize>(rt: &impl Print, rig: &mut Rig<N>) -> io::Result<()> {
    print!(rt; "format:")?;
    for _ in 0..200u8 {
        let answer = rig.format();
        tell(rt, answer)?;
        if answer != Answer::More {
            break;
        }
    }
    println!(rt; "")
}

/// Opens a change and writes pages to it until a write is not done; a line with the pages that went and the answer to the next.
fn write_all<const N: usize>(rt: &impl Print, rig: &mut Rig<N>) -> io::Result<()> {
    print!(rt; "pages written, answer to the next:")?;
    rig.begin();
    let mut pages: u8 = 0;
    let mut answer = Answer::Done;
    for _ in 0..200u8 {
        answer = rig.write();
        if answer != Answer::Done {
            break;
        }
        pages += 1;
    }
    print!(rt; " {pages}")?;
    tell(rt, answer)?;
    println!(rt; "")
}

/// Commits that change and recovers; a line with both answers and the page that logical page 0 then stands on.
fn keep<const N: usize>(rt: &impl Print, rig: &mut Rig<N>) -> io::Result<()> {
    print!(rt; "commit, recover, page of logical page 0:")?;
    tell(rt, rig.commit())?;
    tell(rt, rig.recover())?;
    println!(rt; " {}", rig.map[0])
}

/// Case l: the 41st page goes, the 42nd answers 10; the change is committed and recovered.
fn case_l(rt: &impl Print, planes: u16) -> io::Result<()> {
    println!(rt; "case l, planes: {planes}")?;
    let mut rig: Rig<135168> = Rig::new(Geometry {
        blocks: 8,
        pages: 32,
        logical: 16,
        planes,
    });
    format_all(rt, &mut rig)?;
    write_all(rt, &mut rig)?;
    keep(rt, &mut rig)
}

/// Case m: with L = 16 and P = 8 the fifth checkpoint in all erases block 1 first. Nine strides: the three checkpoints for which block 0 has
/// room beside the format's, and the next. The first byte of block 1 is made zero before, for the erase to be seen.
fn case_m(rt: &impl Print) -> io::Result<()> {
    println!(rt; "case m")?;
    let mut rig: Rig<33792> = Rig::new(Geometry {
        blocks: 8,
        pages: 8,
        logical: 16,
        planes: 1,
    });
    format_all(rt, &mut rig)?;
    rig.array[BLOCK_1] = 0;
    println!(rt; "after each stride: last checkpoint, answer, front block, first byte of block 1")?;
    for _ in 0..9u8 {
        let answer = answers::number(rig.checkpoint());
        let s = rig.device.state;
        println!(rt;
            "{} {answer} {} {}",
            s.checkpoint, s.front, rig.array[BLOCK_1]
        )?;
    }
    Ok(())
}

fn main(rt: HostRuntime) -> io::Result<()> {
    case_l(&rt, 1)?;
    case_l(&rt, 2)?;
    case_m(&rt)
}
